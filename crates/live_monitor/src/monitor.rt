ghost use Rattle.std.specs.Prelude.{◌≡◌, ◌<◌, ◌≤◌, ◌+◌, ◌++◌, ◌∷◌, [], ℕ, List, All, IfOk, IfErr, OnErr, Some, length, map, slice_get, slice_set, slice_index_or, vec_len, vec_capacity};
ghost use Rattle.decl_base.specs.Limits.{greatest_state_limit, standard};
ghost use Rattle.list_dfa.specs.Lists.{IsNarrowList};
ghost use Rattle.template_core.specs.Constraints.{IsWellMadeFor};
ghost use Rattle.template_core.specs.Keeping.{KeepsAll, KeepsOne};
ghost use Rattle.template_core.specs.Tables.{IsTable};
ghost use Rattle.template_core.specs.declared.constraint.Constraint.{Constraint as ConstraintOf};
ghost use Rattle.live_monitor.specs.Standing.{IsStanding, RefusesMonitor};
ghost use Rattle.live_monitor.specs.Stands.{IsMonitor, StandsFor, case_count, constraints_of, symbols_of, trace_of, watched_constraints};
ghost use Rattle.live_monitor.specs.Watching.{AreStepped, IsWatched, StaysIfSaid};
ghost use Rattle.live_monitor.specs.declared.watched.Watched.{Watched as WatchedOf};

use crate::Standing;
use crate::watched::Watched;
use crate::watched_list::WatchedList;
use decl_base::Refusal;
use std::alloc::Global;
use template_core::{Class, Constraint, class_of};

/// Running cases beside a list of constraints. No trace is kept: of each case there is a state of the list's automaton, and one of each constraint's.
#[derive(Drop)]
pub struct Monitor {
    list: WatchedList,
    watched: Vec<Watched>,
    /// Of each case, the state of the list's automaton.
    states: Vec<u32>,
    /// Case after case, the states of the constraints' automata.
    table_states: Vec<u8>,
}

impl Monitor {
    /// A monitor of no case, for traces over so many symbols.
    ///
    /// `States`, with phase 5 and the length of the prefix, exactly where a prefix of the list tells more traces apart than `states`, and of the
    /// shortest such prefix. `Memory`.
    pub fn new(
        alloc: Global,
        list: &[Constraint],
        symbols: u32,
        states: u64,
    ) -> Result<Monitor, Refusal>
        requires made { All (IsWellMadeFor symbols) list.now }
        requires short { length list.now ≤ standard.candidates }
        requires some_states { 1 ≤ states }
        requires few_states { states ≤ greatest_state_limit }
        ensures stands { IfOk result (λ monitor. StandsFor monitor []) }
        ensures monitor { IfOk result IsMonitor }
        ensures cases { IfOk result (λ monitor. case_count monitor ≡ 0) }
        ensures symbols { IfOk result (λ monitor. symbols_of monitor ≡ symbols) }
        ensures constraints { IfOk result (λ monitor. constraints_of monitor ≡ list.now) }
        ensures narrow { IfOk result (λ _. IsNarrowList symbols states list.now) }
        ensures err { IfErr result (RefusesMonitor symbols states list.now) }
    {
        let watched_list = WatchedList::of(alloc, list, symbols, states)?;
        let watched = watch_each(alloc, list, symbols)?;
        Ok(Monitor {
            list: watched_list,
            watched,
            states: Vec::new(alloc),
            table_states: Vec::new(alloc),
        })
    }

    /// Begins a case, whose trace is empty: its number, counted from 0.
    ///
    /// `Memory`, and then the monitor stands for the same traces as before.
    pub fn begin(&mut self) -> Result<u32, Refusal>
        requires few { case_count self.old < standard.traces }
        requires monitor { IsMonitor self.old }
        ensures ok { IfOk result (λ case. (case ≡ case_count self.old) × (case_count self.new ≡ case_count self.old + 1)) }
        ensures err { IfErr result (λ e. e ≡ Refusal.Memory) }
        ensures refused { OnErr result (case_count self.new ≡ case_count self.old) }
        ensures symbols { symbols_of self.new ≡ symbols_of self.old }
        ensures constraints { constraints_of self.new ≡ constraints_of self.old }
        ensures monitor { IsMonitor self.new }
        ensures begun { IfOk result (λ _. (traces : List (List ℕ)) → StandsFor self.old traces → StandsFor self.new (traces ++ [] ∷ [])) }
        ensures unchanged { OnErr result ((traces : List (List ℕ)) → StandsFor self.old traces → StandsFor self.new traces) }
    {
        let case = self.states.len() as u32;
        self.states.reserve(1)?;
        self.table_states.reserve(self.watched.len())?;
        put_start(&mut self.states, self.list.dfa.start());
        put_starts(&mut self.table_states, &self.watched);
        Ok(case)
    }

    /// Puts the symbol at the end of the case's trace.
    pub fn event(&mut self, case: u32, symbol: u32)
        requires begun { case < case_count self.old }
        requires known { symbol < symbols_of self.old }
        requires monitor { IsMonitor self.old }
        ensures cases { case_count self.new ≡ case_count self.old }
        ensures symbols { symbols_of self.new ≡ symbols_of self.old }
        ensures constraints { constraints_of self.new ≡ constraints_of self.old }
        ensures monitor { IsMonitor self.new }
        ensures stands { (traces : List (List ℕ)) → StandsFor self.old traces
            → StandsFor self.new (slice_set traces case (trace_of traces case ++ symbol ∷ [])) }
    {
        let place = case as usize;
        let state = self.states[place];
        let next = self.list.dfa.step(state, symbol);
        self.states[place] = next;
        let from = place * self.watched.len();
        step_each(&mut self.table_states, from, &self.watched, symbol);
    }

    /// The standing of the case's trace by the whole list.
    pub fn whole(&self, case: u32) -> Standing
        requires begun { case < case_count self.now }
        requires monitor { IsMonitor self.now }
        ensures { (traces : List (List ℕ)) → StandsFor self.now traces
            → IsStanding (symbols_of self.now) (KeepsAll (constraints_of self.now)) (trace_of traces case) result }
    {
        let state = self.states[case as usize];
        self.list.standings[state as usize]
    }

    /// The standing of the case's trace by the constraint at this place of the list, counted from 0.
    pub fn one(&self, case: u32, place: u32) -> Standing
        requires begun { case < case_count self.now }
        requires there { place < length (constraints_of self.now) }
        requires monitor { IsMonitor self.now }
        ensures { (traces : List (List ℕ)) (c : ConstraintOf) → StandsFor self.now traces → slice_get (constraints_of self.now) place ≡ Some c
            → IsStanding (symbols_of self.now) (KeepsOne c) (trace_of traces case) result }
    {
        let state = self.table_states[case as usize * self.watched.len() + place as usize];
        self.watched[place as usize].standings[state as usize]
    }
}

/// Each constraint of a list, over so many symbols.
fn watch_each(alloc: Global, list: &[Constraint], symbols: u32) -> Result<Vec<Watched>, Refusal>
    requires { All (IsWellMadeFor symbols) list.now }
    ensures are { IfOk result (λ watched. All (IsWatched symbols) watched.items) }
    ensures of { IfOk result (λ watched. watched_constraints watched.items ≡ list.now) }
    ensures err { IfErr result (λ e. e ≡ Refusal.Memory) }
{
    let mut watched = Vec::new(alloc);
    for constraint in list {
        watched.push(Watched::of(constraint, symbols))?;
    }
    Ok(watched)
}

/// Puts the start of the list's automaton behind the states that there are.
fn put_start(states: &mut Vec<u32>, start: u32)
    requires { vec_len states.old < vec_capacity states.old }
    ensures { states.new.items ≡ states.old.items ++ start ∷ [] }
{
    let _ = states.push(start);
}

/// Puts the starts of the constraints' automata behind the states that there are.
fn put_starts(table_states: &mut Vec<u8>, watched: &[Watched])
    requires { vec_len table_states.old + length watched.now ≤ vec_capacity table_states.old }
    ensures { table_states.new.items ≡ table_states.old.items ++ map (λ one. one.table.start) watched.now }
{
    for one in watched {
        let _ = table_states.push(one.table.start);
    }
}

/// An event, for the states of the constraints' automata from a place on. Most constraints name other activities, and stay.
fn step_each(table_states: &mut [u8], from: usize, watched: &[Watched], symbol: u32)
    requires room { from + length watched.now ≤ length table_states.old }
    requires tables { All (λ one. IsTable one.table) watched.now }
    requires stay { All StaysIfSaid watched.now }
    requires states { (place : ℕ) (one : WatchedOf) → slice_get watched.now place ≡ Some one
        → slice_index_or table_states.old (from + place) 0 < one.table.states }
    ensures { AreStepped watched.now symbol from (length watched.now) table_states.old table_states.new }
{
    for (place, one) in watched.iter().enumerate() {
        let class = class_of(&one.constraint, symbol);
        if !(one.stays && matches!(class, Class::Other)) {
            let at = from + place;
            table_states[at] = one.table.step(table_states[at], class);
        }
    }
}
