mod csv_logs;
mod logs;
mod models;
mod string_logs;
mod words;
