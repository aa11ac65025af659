//! How many events may be picked.
ghost use Rattle.da_lang.specs.World.{at_number};
ghost use Rattle.da_system.specs.Channels.{or_empty, put_numbered};
ghost use Rattle.da_system.specs.Counted.{IsFewMoves, moves_at, no_counts, row_at, with_deliveries, with_moves};
ghost use Rattle.da_system.specs.Queues.{IsAmong};
ghost use Rattle.std.specs.Option.{option_copied, option_map};
ghost use Rattle.std.specs.Prelude.{◌≡◌, ◌+◌, ◌<◌, ◌≤◌, ◌^◌, IfOk, IfSome, MatchOption, length, replicate, slice_set, sum};

use da_values::{List, NoMemory};
use std::alloc::Global;
use std::marker::Model;

/// How many messages of one sender may be picked: a count for each recipient, of at most 4, and their sum. Contracts see the
/// counts.
#[derive(Drop)]
struct Row {
    counts: List<usize>,
    total: usize,
}

impl Model for Row {
    ghost use Rattle.da_system.specs.Counted.{IsTally};
    ghost use Rattle.std.specs.Prelude.{ℕ, List};

    ghost Value = { List ℕ };

    ghost view = { λ row. row.counts };

    ghost invariant = { λ row. IsTally row.counts row.total };
}

impl Row {
    // So many zeros.
    fn new(alloc: Global, count: usize) -> Result<Row, NoMemory>
        requires { count < 2 ^ 16 }
        ensures { IfOk result (λ row. row ≡ replicate count 0) }
    {
        let counts = so_many_zeros(alloc, count)?;
        Ok(Row { counts, total: 0 })
    }

    // The count of recipient `q`, or `None` where there is no such process.
    fn get(&self, q: u32) -> Option<usize>
        ensures value { result ≡ at_number self.now q }
        ensures few { IfSome result (λ n. n ≤ 4) }
    {
        let place = (q as usize).checked_sub(1)?;
        match self.counts.get(place) {
            Some(count) => Some(*count),
            None => None,
        }
    }

    // The sum of the counts.
    fn total(&self) -> usize
        ensures value { result ≡ sum self.now }
        ensures few { result ≤ 2 ^ 18 }
    {
        self.total
    }

    // For how many recipients there is a count.
    fn len(&self) -> usize
        ensures { result ≡ length self.now }
    {
        self.counts.len()
    }

    // Another count for recipient `q`, if there is such a process.
    fn put(&mut self, q: u32, count: usize)
        requires { count ≤ 4 }
        ensures { self.new ≡ put_numbered self.old q count }
    {
        match place_of(q, self.len()) {
            Some(place) => self.put_at(place, count),
            None => {}
        }
    }

    // Another count at this place.
    fn put_at(&mut self, place: usize, count: usize)
        requires place { place < length self.old }
        requires few { count ≤ 4 }
        ensures { self.new ≡ slice_set self.old place count }
    {
        let old = self.counts.replace(place, count);
        let others = self.total - old;
        let total = others + count;
        self.total = total;
    }
}

/// How many events may be picked: for each process its moves, with the timeout, and for each channel the deliveries of its
/// first messages. Contracts see the counts.
#[derive(Drop)]
pub struct Counts {
    moves: List<usize>,
    deliveries: Vec<Row>,
}

impl Model for Counts {
    ghost use Rattle.da_system.specs.Counted.{Counted, IsFewMoves};
    ghost use Rattle.std.specs.List.{AllByRecursion};

    ghost Value = { Counted };

    ghost view = { λ counts. record { moves = counts.moves; deliveries = counts.deliveries.items } };

    ghost invariant = { λ counts. AllByRecursion IsFewMoves counts.moves };
}

impl Counts {
    /// Those of so many processes, where nothing may be picked.
    pub(crate) fn zeros(alloc: Global, count: usize) -> Result<Counts, NoMemory>
        requires { count < 2 ^ 16 }
        ensures { IfOk result (λ counts. counts ≡ no_counts count) }
    {
        let moves = so_many_zeros(alloc, count)?;
        let deliveries = so_many_rows(alloc, count)?;
        Ok(Counts { moves, deliveries })
    }

    /// How many moves of process `p` may be picked, or `None` where there is no such process. It takes no memory.
    pub(crate) fn moves(&self, p: u32) -> Option<usize>
        ensures value { result ≡ at_number self.now.moves p }
        ensures few { IfSome result IsFewMoves }
    {
        let place = (p as usize).checked_sub(1)?;
        match self.moves.get(place) {
            Some(count) => Some(*count),
            None => None,
        }
    }

    /// How many messages from process `p` may be picked, or `None` where there is no such process. It takes no memory.
    pub(crate) fn deliveries_from(&self, p: u32) -> Option<usize>
        ensures value { result ≡ option_map sum (at_number self.now.deliveries p) }
        ensures few { IfSome result (λ n. n ≤ 2 ^ 18) }
    {
        match self.row(p) {
            Some(row) => Some(row.total()),
            None => None,
        }
    }

    /// How many messages from process `p` to process `q` may be picked, or `None` where one of them is not there. It takes no
    /// memory.
    pub(crate) fn deliveries(&self, p: u32, q: u32) -> Option<usize>
        ensures value { result ≡ at_number (or_empty (at_number self.now.deliveries p)) q }
        ensures few { IfSome result (λ n. n ≤ 4) }
    {
        match self.row(p) {
            Some(row) => row.get(q),
            None => None,
        }
    }

    // The counts of sender `p`, or `None` where there is no such process.
    fn row(&self, p: u32) -> Option<&Row>
        ensures { option_copied result ≡ at_number self.now.deliveries p }
    {
        let place = (p as usize).checked_sub(1)?;
        self.deliveries.get(place)
    }

    // For how many processes there is a count of moves.
    fn movers(&self) -> usize
        ensures { result ≡ length self.now.moves }
    {
        self.moves.len()
    }

    // For how many senders there are counts.
    fn senders(&self) -> usize
        ensures { result ≡ length self.now.deliveries }
    {
        self.deliveries.len()
    }

    /// Another count of the moves of process `p`, if it is there. It takes no memory.
    pub(crate) fn put_moves(&mut self, p: u32, count: usize)
        requires { IsFewMoves count }
        ensures { self.new ≡ with_moves self.old p count }
    {
        match place_of(p, self.movers()) {
            Some(place) => self.put_moves_at(place, count),
            None => {}
        }
    }

    // Another count of moves at this place.
    fn put_moves_at(&mut self, place: usize, count: usize)
        requires place { place < length self.old.moves }
        requires few { IsFewMoves count }
        ensures { self.new ≡ moves_at self.old place count }
    {
        let _ = self.moves.replace(place, count);
    }

    /// Another count of the deliveries from process `p` to process `q`, if they are there. It takes no memory.
    pub(crate) fn put_deliveries(&mut self, p: u32, q: u32, count: usize)
        requires { count ≤ 4 }
        ensures { self.new ≡ with_deliveries self.old p q count }
    {
        match place_of(p, self.senders()) {
            Some(place) => self.put_row_at(place, q, count),
            None => {}
        }
    }

    // Another count for recipient `q` in the row at this place.
    fn put_row_at(&mut self, place: usize, q: u32, count: usize)
        requires place { place < length self.old.deliveries }
        requires few { count ≤ 4 }
        ensures { self.new ≡ row_at self.old place q count }
    {
        self.deliveries[place].put(q, count);
    }
}

// Each field by its name: a further one is refused here until it is named. None of them is a list of messages.
fn fields_are_whole(counts: &Counts) {
    let Counts {
        moves: _,
        deliveries: _,
    } = counts;
}

// So many zeros.
fn so_many_zeros(alloc: Global, count: usize) -> Result<List<usize>, NoMemory>
    ensures { IfOk result (λ zeros. zeros ≡ replicate count 0) }
{
    let mut zeros = List::new(alloc);
    for _place in 0..count {
        zeros.push(0)?;
    }
    Ok(zeros)
}

// So many rows of as many zeros.
fn so_many_rows(alloc: Global, count: usize) -> Result<Vec<Row>, NoMemory>
    requires { count < 2 ^ 16 }
    ensures { IfOk result (λ rows. rows.items ≡ replicate count (replicate count 0)) }
{
    let mut rows = Vec::new(alloc);
    for _place in 0..count {
        if rows.push(Row::new(alloc, count)?).is_err() {
            return Err(NoMemory);
        }
    }
    Ok(rows)
}

// The place of number `p` among so many, counted from 0, or `None` where there are fewer.
fn place_of(p: u32, count: usize) -> Option<usize>
    ensures { MatchOption result (IsAmong count p → ⊥) (λ place. (p ≡ place + 1) × (place < count)) }
{
    let place = (p as usize).checked_sub(1)?;
    if place < count { Some(place) } else { None }
}
