//! Several host threads at work on the words of one table, each with the seat of a guest thread.
ghost use Rattle.std.specs.Prelude.{◌≡◌, ℕ, ◌+◌, ◌<◌, ◌≤◌, IfSome};
ghost use Rattle.std.specs.Thread.{IsSync};
ghost use Rattle.shared_region.specs.WordRule.{HasWord};
ghost use Rattle.shared_region.specs.Tickets.{IsTicketOf};
ghost use Rattle.shared_table.specs.declared.view.Told.TheVariants.{Never, Out};
ghost use Rattle.shared_table.specs.Views.{book_in, told};
ghost use Rattle.shared_table.specs.Seats.{view_of, seat_name, table_name, ticket_of, kept_of, IsMaker};

use shared_region::Port;
use shared_table::{Seat, SeatPort, SharedTable};
use sm_types::{OpKind, SharedOp, Words};
use std::alloc::Global;
use std::process::Abort as Stops;
use std::thread::{Threads, join};

/// How often each thread adds to shared word 0, and how much more each adds than the one before it.
#[derive(Clone, Copy)]
struct Adding {
    times: usize,
    step: u64,
}

impl Adding {
    /// What the thread of a number adds. The first adds 1.
    fn amount(self, thread: u32) -> u64 {
        u64::from(thread).wrapping_mul(self.step).wrapping_add(1)
    }
}

/// Makes an operation of a thread. `u64::MAX` is a refusal.
fn make(port: &mut SeatPort, seat: &mut Seat, thread: u32, op: SharedOp) -> u64
    requires ticket { IsTicketOf thread (table_name port.old.table.now) (ticket_of seat.old) }
    requires place { HasWord op }
    ensures ticket { IsTicketOf thread (table_name port.new.table.now) (ticket_of seat.new) }
    ensures name { table_name port.new.table.now ≡ table_name port.old.table.now }
{
    port.access(seat, thread, op).unwrap_or(u64::MAX)
}

/// Makes an addition of a thread for each answer, which are written in order, and posts signal 3 to thread 0.
fn work(table: &SharedTable, mut seat: Seat, thread: u32, amount: u64, answers: &mut [u64]) -> Seat
    requires { IsTicketOf thread (table_name table.now) (ticket_of seat) }
    ensures { IsTicketOf thread (table_name table.now) (ticket_of result) }
{
    let mut port = SeatPort::new(table);
    let add = SharedOp {
        kind: OpKind::Add,
        place: 0,
        a: amount,
        b: 0,
    };
    for i in 0..answers.len() {
        answers[i] = make(&mut port, &mut seat, thread, add);
    }
    let post = SharedOp {
        kind: OpKind::Post,
        place: 0,
        a: 8,
        b: 0,
    };
    make(&mut port, &mut seat, thread, post);
    seat
}

/// Splits a seat for each part of the answers, for the threads from a number on, lets each add on a host
/// thread of its own, all at once, and joins their seats again.
fn run<R: Threads + Sync>(
    rt: &R,
    table: &SharedTable,
    mut maker: Seat,
    thread: u32,
    adding: Adding,
    answers: &mut [u64],
) -> Seat
    requires name { seat_name maker ≡ table_name table.now }
    requires maker { IsMaker maker }
    requires fresh { (t : ℕ) → thread ≤ t → t < 32 → kept_of maker t ≡ Never }
    ensures name { seat_name result ≡ table_name table.now }
    ensures maker { IsMaker result }
    ensures back { (t : ℕ) → told (book_in (view_of result)) t ≡ Out
        → told (book_in (view_of maker)) t ≡ Out }
{
    if thread >= 32 || adding.times == 0 || answers.len() < adding.times {
        return maker;
    }
    let seat = table.split(&mut maker, thread);
    let (mine, others) = answers.split_at_mut(adding.times);
    let amount = adding.amount(thread);
    let (seat, mut maker) = join(
        rt,
        || -> Seat
            requires { IsTicketOf thread (table_name table.now) (ticket_of seat) }
            ensures { IsTicketOf thread (table_name table.entry.now) (ticket_of result) }
        { work(table, seat, thread, amount, mine) },
        || -> Seat
            requires row { IsSync R.row }
            requires name { seat_name maker ≡ table_name table.now }
            requires maker { IsMaker maker }
            requires fresh { (t : ℕ) → thread + 1 ≤ t → t < 32 → kept_of maker t ≡ Never }
            requires small { thread < 32 }
            ensures name { seat_name result ≡ table_name table.entry.now }
            ensures maker { IsMaker result }
            ensures back { (t : ℕ) → told (book_in (view_of result)) t ≡ Out
                → told (book_in (view_of maker)) t ≡ Out }
        { run(rt, table, maker, thread + 1, adding, others) },
    );
    table.join(&mut maker, seat);
    maker
}

/// The thread whose next answer is the word, where there is one.
fn whose(answers: &[u64], times: usize, next: &[usize; 32], word: u64) -> Option<usize>
    requires { 0 < times }
    ensures { IfSome result (λ thread. thread < 32) }
{
    for (thread, journal) in answers.chunks(times).enumerate() {
        if thread >= 32 {
            return None;
        }
        if let Some(answer) = journal.get(next[thread]) {
            if *answer == word {
                return Some(thread);
            }
        }
    }
    None
}

/// The word after all additions, those of each thread in their order, where they are one history: each is an
/// addition to the word that it answers. Since each adds something, all answers then differ.
fn merged(answers: &[u64], adding: Adding) -> Option<u64> {
    if adding.times == 0 {
        return None;
    }
    let mut next = [0usize; 32];
    let mut word = 0u64;
    for _ in 0..answers.len() {
        let thread = whose(answers, adding.times, &next, word)?;
        next[thread] = next[thread].wrapping_add(1);
        word = word.wrapping_add(adding.amount(thread as u32));
    }
    Some(word)
}

/// Threads add to one new table, one for each part of the answers, to a sum.
fn try_with<R: Threads + Stops + Sync>(
    rt: &R,
    alloc: Global,
    adding: Adding,
    answers: &mut [u64],
    sum: u64,
) {
    let (table, maker) = SharedTable::new(alloc).ok().expect(rt, "memory");
    let maker = run(rt, &table, maker, 0, adding, answers);
    let mut words = Words {
        shared: [1; 512],
        pending: [1; 32],
    };
    table.close(maker, &mut words);
    assert_eq!(rt; words.shared[0], sum);
    assert_eq!(rt; words.shared[511], 0);
    assert_eq!(rt; words.pending[0], 8);
    assert_eq!(rt; words.pending[31], 0);
    assert_eq!(rt; merged(answers, adding), Some(sum));
}

#[test]
fn four_threads_add_at_once(rt: HostRuntime) {
    let ones = Adding {
        times: 1_000,
        step: 0,
    };
    try_with(&rt, rt.alloc(), ones, &mut [0; 4_000], 4_000);
    let more = Adding {
        times: 4_000,
        step: 1,
    };
    try_with(&rt, rt.alloc(), more, &mut [0; 16_000], 40_000);
}

#[test]
fn eight_threads_add_at_once(rt: HostRuntime) {
    let more = Adding {
        times: 4_000,
        step: 1,
    };
    try_with(&rt, rt.alloc(), more, &mut [0; 32_000], 144_000);
}
