ghost use Rattle.std.specs.Prelude.{◌≡◌, ◌<◌, ◌≤◌, ◌∷◌, min, [], length, take, None, Some, is_some, MatchOption};
ghost use Rattle.decl_outside.specs.MemFiles.{bytes_of, bytes_from, has_name};

use decl_base::Name;

/// A name, and the bytes that it stands for.
#[derive(Debug, Drop)]
pub struct MemFile {
    pub name: Name,
    pub bytes: Vec<u8>,
}

/// The first file of this name.
pub fn position_of(files: &[MemFile], name: &str) -> Option<usize>
    ensures bytes { MatchOption result (bytes_of files.now name.now ≡ [])
        (λ i. bytes_from files.now result 0 ≡ bytes_of files.now name.now) }
    ensures found { is_some result ≡ has_name files.now name.now }
{
    for (i, file) in files.iter().enumerate() {
        if file.name.text() == name {
            return Some(i);
        }
    }
    None
}

/// What is left of the current file.
pub fn rest_of(files: &[MemFile], current: Option<usize>, place: usize) -> &[u8]
    ensures { result.now ≡ bytes_from files.now current place }
{
    match current.and_then(|i| files.get(i)) {
        Some(file) => file.bytes.get(place..).unwrap_or(&[]),
        None => &[],
    }
}

/// Copies a prefix of the bytes to the front of the buffer, and answers its length.
pub fn copy_front(bytes: &[u8], buffer: &mut [u8], at_most: usize) -> usize
    requires some { 0 < at_most }
    requires room { 0 < length buffer.old }
    ensures within { result ≤ length bytes.now }
    ensures fits { result ≤ length buffer.new }
    ensures copied { take result buffer.new ≡ take result bytes.now }
    ensures none_at_end { result ≡ 0 → bytes.now ≡ [] }
    ensures count { result ≡ min (min (length bytes.now) (length buffer.old)) at_most }
{
    let count = bytes.len().min(buffer.len()).min(at_most);
    buffer[..count].copy_from_slice(&bytes[..count]);
    count
}
