ghost use Rattle.std.specs.Prelude.{◌≡◌, ◌<◌, ◌≤◌, ◌+◌, ◌^◌, ℕ, length, slice_index, IfOk, OnOk};
ghost use Rattle.dfa_minimise.specs.Partitions.{Begins, CutsClass, IsCut, IsGrouped, IsTidy, Marks, MarksFit, members_of};
ghost use Rattle.dfa_minimise.specs.Classes.{AreInClass};

use std::alloc::{AllocError, Global};

/// A partition of the states that can be split, or in the same way one of the columns. The states of a class stand together in `order`, those that
/// are marked first.
#[derive(Drop)]
pub(crate) struct Refinable {
    order: Vec<u32>,
    place: Vec<u32>,
    class: Vec<u32>,
    first: Vec<u32>,
    end: Vec<u32>,
    marked: Vec<u32>,
}

impl Refinable {
    /// All states in one class.
    pub fn whole(alloc: Global, states: u32) -> Result<Refinable, AllocError>
        requires { 0 < states }
        ensures tidy { IfOk result IsTidy }
        ensures states { IfOk result (λ p. length p.class.items ≡ states) }
        ensures one { IfOk result (λ p. (q : ℕ) → slice_index p.class.items q ≡ 0) }
    {
        let mut order = Vec::new(alloc);
        let mut place = Vec::new(alloc);
        for state in 0..states {
            order.push(state)?;
            place.push(state)?;
        }
        Ok(Refinable {
            order,
            place,
            class: vec![in alloc; 0; states as usize]?,
            first: vec![in alloc; 0]?,
            end: vec![in alloc; states]?,
            marked: vec![in alloc; 0]?,
        })
    }

    /// The number of classes.
    pub fn count(&self) -> u32
        requires { IsTidy self.now }
        ensures { result ≡ length self.now.first.items }
    {
        self.first.len() as u32
    }

    /// The class of a state.
    pub fn class_of(&self, state: u32) -> u32
        requires tidy { IsTidy self.now }
        requires state { state < length self.now.class.items }
        ensures value { result ≡ slice_index self.now.class.items state }
        ensures bound { result < length self.now.first.items }
    {
        self.class[state as usize]
    }

    /// A state of a class.
    pub fn member_of(&self, class: u32) -> u32
        requires tidy { IsTidy self.now }
        requires class { class < length self.now.first.items }
        ensures value { result ≡ slice_index (members_of self.now) class }
        ensures bound { result < length self.now.class.items }
    {
        self.order[self.first[class as usize] as usize]
    }

    /// The states of a class.
    pub fn states_of(&self, alloc: Global, class: u32) -> Result<Vec<u32>, AllocError>
        requires tidy { IsTidy self.now }
        requires class { class < length self.now.first.items }
        ensures { IfOk result (λ states. AreInClass (length self.now.class.items) class self.now.class.items states.items) }
    {
        let first = self.first[class as usize] as usize;
        let end = self.end[class as usize] as usize;
        Vec::from_slice(alloc, &self.order[first..end])
    }

    /// Parts the states that were touched from the others of their classes. The smaller part of a class becomes a new class.
    pub fn split(&mut self, touched: &[u32]) -> Result<(), AllocError>
        requires tidy { IsTidy self.old }
        requires states { (k : ℕ) → k < length touched.now → slice_index touched.now k < length self.old.class.items }
        ensures tidy { OnOk result (IsTidy self.new) }
        ensures states { OnOk result (length self.new.class.items ≡ length self.old.class.items) }
        ensures grows { OnOk result (length self.old.first.items ≤ length self.new.first.items) }
        ensures cut { OnOk result (IsCut (length self.old.class.items) (length self.old.first.items) touched.now self.old.class.items self.new.class.items) }
    {
        'marks: for state in touched {
            self.mark(*state);
        }
        'cuts: for state in touched {
            let class = self.class[*state as usize];
            self.cut(class)?;
        }
        Ok(())
    }

    /// Puts a state among the marked ones of its class.
    fn mark(&mut self, state: u32)
        requires state { state < length self.old.class.items }
        requires few { length self.old.class.items < 2 ^ 32 }
        requires refinable { IsGrouped self.old }
        requires fit { MarksFit self.old.first.items self.old.end.items self.old.marked.items }
        ensures { Marks (length self.old.class.items) self.old self.new state }
    {
        let class = self.class[state as usize] as usize;
        let to = self.first[class] + self.marked[class];
        let from = self.place[state as usize];
        if to <= from {
            let other = self.order[to as usize];
            self.order[to as usize] = state;
            self.order[from as usize] = other;
            self.place[other as usize] = from;
            self.place[state as usize] = to;
            self.marked[class] += 1;
        }
    }

    /// Parts the marked states of a class from its others. The smaller part becomes a new class.
    fn cut(&mut self, class: u32) -> Result<(), AllocError>
        requires class { class < length self.old.first.items }
        requires few { length self.old.class.items < 2 ^ 32 }
        requires refinable { IsGrouped self.old }
        requires fit { MarksFit self.old.first.items self.old.end.items self.old.marked.items }
        ensures { OnOk result (CutsClass self.old self.new class) }
    {
        let first = self.first[class as usize];
        let end = self.end[class as usize];
        let middle = first + self.marked[class as usize];
        self.marked[class as usize] = 0;
        if first == middle || middle == end {
            return Ok(());
        }
        if middle - first <= end - middle {
            self.first[class as usize] = middle;
            self.begin(first, middle)?;
        } else {
            self.end[class as usize] = middle;
            self.begin(middle, end)?;
        }
        Ok(())
    }

    /// Makes a new class of the states at some places.
    fn begin(&mut self, first: u32, end: u32) -> Result<(), AllocError>
        requires few { length self.old.first.items < 2 ^ 32 }
        requires order { length self.old.order.items ≡ length self.old.class.items }
        requires range { first ≤ end }
        requires places { end ≤ length self.old.class.items }
        requires order_bound { (i : ℕ) → i < length self.old.class.items → slice_index self.old.order.items i < length self.old.class.items }
        requires order_place { (q : ℕ) → q < length self.old.class.items → slice_index self.old.order.items (slice_index self.old.place.items q) ≡ q }
        requires place_order { (i : ℕ) → i < length self.old.class.items → slice_index self.old.place.items (slice_index self.old.order.items i) ≡ i }
        ensures { OnOk result (Begins self.old self.new first end end) }
    {
        let class = self.first.len() as u32;
        self.first.push(first)?;
        self.end.push(end)?;
        self.marked.push(0)?;
        for at in first..end {
            self.class[self.order[at as usize] as usize] = class;
        }
        Ok(())
    }
}
