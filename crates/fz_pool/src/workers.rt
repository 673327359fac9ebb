//! The workers of one call: hands are split off the first seat, each works until no tile is left, and all
//! are joined again.
ghost use Rattle.std.specs.Prelude.{◌≡◌, ◌+◌, ◌<◌, ◌≤◌, Bool, true, false, [], All, length, vec_len, vec_capacity};
ghost use Rattle.std.specs.Thread.{IsSync};
ghost use mathlib.Core.Option.{some};
ghost use lib.ListN.{get_elem?};
ghost use Rattle.fz_pool.specs.declared.slot.Slot.{Slot};
ghost use Rattle.fz_pool.specs.Hands.{IsIdle, HoldsStart, HasEnded, IsSame, IsSeatOf, IsSeated, IsBack, Leads};

use crate::board::{Board, Hand};
use crate::step_facts::{JoinFact, SplitFact};
use crate::steps::{draw, home, work_on};
use crate::task::Start;
use crate::{Crew, Task};
use fz_base::Gate;
use std::thread;
use std::thread::{Threads, available_parallelism, join_mut};

// So many pixels, some 80 microseconds of Rice codes, pay the start of a thread beside a job.
const BESIDE: u64 = 32_768;

// The tile's number in its image.
fn tile_number(board: &Board, hand: &mut Hand, i: u32) -> u32
    requires seat { hand.old.table_id ≡ board.now.shared.table_id }
    requires start { HoldsStart hand.old i }
    ensures hand { hand.new ≡ hand.old }
    ensures tile { (x : Slot) → get_elem? hand.old.me.0.starts i ≡ some x → result ≡ x.job.tile }
{
    match hand.slot_mut(&board.shared, i as usize) {
        Some(slot) => slot.job.tile,
        None => unreachable!(),
    }
}

// One worker draws tiles until none is left.
fn code_tiles<G: Gate>(board: &Board, hand: &mut Hand, gate: &G, worker: u32, task: Task)
    requires seat { IsSeatOf board.now.shared.table_id hand.old }
    requires idle { IsIdle hand.old }
    requires task { task ≡ hand.old.me.0.task }
    ensures same { IsSame hand.old hand.new }
    ensures ended { HasEnded hand.new }
{
    while let Some(i) = draw(board, hand) {
        gate.pass(worker, tile_number(board, hand, i));
        work_on(board, hand, i, task);
        home(board, hand);
    }
}

// Splits off a hand for each worker.
fn split_hands(board: &Board, first: &mut Hand, hands: &mut Vec<Hand>, workers: usize, task: Task)
    requires table { board.now.shared.table_id.words ≡ 1 }
    requires lead { Leads board.now.shared.table_id board.now.shared.key task workers 0 false first.old }
    requires empty { hands.old.items ≡ [] }
    requires room { workers ≤ vec_capacity hands.old }
    ensures lead { Leads board.now.shared.table_id board.now.shared.key task 0 workers false first.new }
    ensures seated { All (IsSeated board.now.shared.table_id board.now.shared.key task) hands.new.items }
    ensures count { vec_len hands.new ≡ workers }
{
    for _i in 0..workers {
        hands.push_reserved(board.shared.split_seat::<SplitFact>(first));
    }
}

// Joins the hands again.
fn join_hands(board: &Board, first: &mut Hand, mut hands: Vec<Hand>, task: Task)
    requires table { board.now.shared.table_id.words ≡ 1 }
    requires some { 0 < vec_len hands }
    requires lead { Leads board.now.shared.table_id board.now.shared.key task 0 (vec_len hands) false first.old }
    requires back { All (IsBack board.now.shared.table_id) hands.items }
    ensures { Leads board.now.shared.table_id board.now.shared.key task 0 0 true first.new }
{
    while let Some(hand) = hands.pop() {
        board.shared.join_seat::<JoinFact>(first, hand);
    }
}

// Has each hand work in its turn, on this thread and on others that start at once.
fn work_at_once<R: Threads + Sync, G: Gate>(
    crew: &Crew<'_, R, G>,
    board: &Board,
    task: Task,
    worker: usize,
    threads: usize,
    hands: &mut [Hand],
)
    requires table { board.now.shared.table_id.words ≡ 1 }
    requires workers { worker + length hands.old ≤ 64 }
    requires threads { 0 < threads }
    requires seated { All (IsSeated board.now.shared.table_id board.now.shared.key task) hands.old }
    ensures { All (IsBack board.now.shared.table_id) hands.new }
{
    let gate = crew.gate;
    thread::for_each_mut(
        crew.rt,
        hands,
        threads,
        &|i: usize, hand: &mut Hand|
            requires { (worker + i < 64) × (board.now.shared.table_id.words ≡ 1)
                × IsSeated board.now.shared.table_id board.now.shared.key task hand.old }
            ensures { IsBack board.entry.now.shared.table_id hand.new }
        { code_tiles(board, hand, gate, (worker + i) as u32, task) },
    );
}

// Whether the start of one more thread pays beside so many. It does while none of them has come to its
// second tile, so that tiles which are held, or are large, hold up no other. Else it does while more than
// three times as many tiles are left as were drawn: a start takes about as long as those did so far.
fn one_more_pays(board: &Board, threads: usize) -> bool
    requires { board.now.shared.table_id.words ≡ 1 }
{
    let drawn = board.shared.peek(0);
    let left = (board.slot_count() as u64).saturating_sub(drawn);
    left >= 2 && (drawn <= threads as u64 || left / 3 > drawn)
}

// Has each hand work. A new thread does the same with all but the first hand, if one more pays.
#[cycle(on_demand)]
fn work_on_demand<R: Threads + Sync, G: Gate>(
    crew: &Crew<'_, R, G>,
    board: &Board,
    task: Task,
    worker: usize,
    hands: &mut [Hand],
)
    requires table { board.now.shared.table_id.words ≡ 1 }
    requires workers { worker + length hands.old ≤ 64 }
    requires seated { All (IsSeated board.now.shared.table_id board.now.shared.key task) hands.old }
    ensures { All (IsBack board.now.shared.table_id) hands.new }
{
    if hands.len() < 2 || !one_more_pays(board, worker) {
        work_at_once(crew, board, task, worker, 1, hands);
        return;
    }
    let (own, others) = hands.split_at_mut(1);
    work_beside(crew, board, task, worker, own, others);
}

// Starts a thread for the other hands, and then has the own hand work on this one.
#[cycle(on_demand)]
fn work_beside<R: Threads + Sync, G: Gate>(
    crew: &Crew<'_, R, G>,
    board: &Board,
    task: Task,
    worker: usize,
    own: &mut [Hand],
    others: &mut [Hand],
)
    requires table { board.now.shared.table_id.words ≡ 1 }
    requires one { length own.old ≡ 1 }
    requires workers { worker + 1 + length others.old ≤ 64 }
    requires own { All (IsSeated board.now.shared.table_id board.now.shared.key task) own.old }
    requires others { All (IsSeated board.now.shared.table_id board.now.shared.key task) others.old }
    ensures own { All (IsBack board.now.shared.table_id) own.new }
    ensures others { All (IsBack board.now.shared.table_id) others.new }
{
    let mut there = ||
        requires { IsSync R.row × IsSync G.row × (board.now.shared.table_id.words ≡ 1)
            × (worker + 1 + length others.now ≤ 64)
            × All (IsSeated board.now.shared.table_id board.now.shared.key task) others.now }
        ensures { All (IsBack board.entry.now.shared.table_id) others.exit.now }
    { work_on_demand(crew, board, task, worker + 1, others) };
    let mut here = ||
        requires { IsSync R.row × IsSync G.row × (board.now.shared.table_id.words ≡ 1) × (worker + length own.now ≤ 64)
            × All (IsSeated board.now.shared.table_id board.now.shared.key task) own.now }
        ensures { All (IsBack board.entry.now.shared.table_id) own.exit.now }
    { work_at_once(crew, board, task, worker, 1, own) };
    join_mut(crew.rt, &mut there, &mut here);
}

// As many threads as there are processors, but two or more, so that a tile that is held holds up no other.
fn processors(rt: &impl Threads) -> usize
    ensures { 2 ≤ result }
{
    match available_parallelism(rt) {
        Ok(processors) => processors.get().max(2),
        Err(_) => 2,
    }
}

// As many threads beside this one as the pixels of so many tiles pay, but one or more, and no more than there are
// processors or tiles. The processors are asked for only if they matter.
fn threads_beside(rt: &impl Threads, pixels: u64, tiles: usize) -> usize
    ensures { 1 ≤ result }
{
    let paid = (pixels / BESIDE).min(tiles as u64) as usize;
    if paid < 2 {
        return 1;
    }
    paid.min(processors(rt) - 1)
}

// Starts a thread for each of the first hands, so many, does the job, and then has the other hands work, on demand:
// tiles that are held hold up no other then.
#[cycle(beside)]
fn work_with<R: Threads + Sync, G: Gate, J: FnMut() -> B, B>(
    crew: &Crew<'_, R, G>,
    board: &Board,
    task: Task,
    worker: usize,
    threads: usize,
    job: &mut J,
    hands: &mut [Hand],
) -> B
    requires table { board.now.shared.table_id.words ≡ 1 }
    requires workers { worker + length hands.old ≤ 64 }
    requires seated { All (IsSeated board.now.shared.table_id board.now.shared.key task) hands.old }
    requires job { J.pre job.old }
    ensures hands { All (IsBack board.now.shared.table_id) hands.new }
    ensures job { J.step job.old result job.new }
{
    if threads == 0 || hands.len() < 2 {
        let answer = job();
        work_on_demand(crew, board, task, worker, hands);
        return answer;
    }
    let (own, others) = hands.split_at_mut(1);
    hand_over(crew, board, task, worker, threads, job, own, others)
}

// Starts a thread for its own hand, and then does the same with the others.
#[cycle(beside)]
fn hand_over<R: Threads + Sync, G: Gate, J: FnMut() -> B, B>(
    crew: &Crew<'_, R, G>,
    board: &Board,
    task: Task,
    worker: usize,
    threads: usize,
    job: &mut J,
    own: &mut [Hand],
    others: &mut [Hand],
) -> B
    requires table { board.now.shared.table_id.words ≡ 1 }
    requires one { length own.old ≡ 1 }
    requires workers { worker + 1 + length others.old ≤ 64 }
    requires threads { 0 < threads }
    requires own { All (IsSeated board.now.shared.table_id board.now.shared.key task) own.old }
    requires others { All (IsSeated board.now.shared.table_id board.now.shared.key task) others.old }
    requires job { J.pre job.old }
    ensures own { All (IsBack board.now.shared.table_id) own.new }
    ensures others { All (IsBack board.now.shared.table_id) others.new }
    ensures job { J.step job.old result job.new }
{
    let mut there = ||
        requires { IsSync R.row × IsSync G.row × (board.now.shared.table_id.words ≡ 1) × (worker + length own.now ≤ 64)
            × All (IsSeated board.now.shared.table_id board.now.shared.key task) own.now }
        ensures { All (IsBack board.entry.now.shared.table_id) own.exit.now }
    { work_at_once(crew, board, task, worker, 1, own) };
    let mut here = || -> B
        requires { IsSync R.row × IsSync G.row × (board.now.shared.table_id.words ≡ 1)
            × (worker + 1 + length others.now ≤ 64) × (0 < threads) × J.pre job.now
            × All (IsSeated board.now.shared.table_id board.now.shared.key task) others.now }
        ensures { J.step job.entry.now result job.exit.now × All (IsBack board.entry.now.shared.table_id) others.exit.now }
    { work_with(crew, board, task, worker + 1, threads - 1, job, others) };
    let ((), answer) = join_mut(crew.rt, &mut there, &mut here);
    answer
}

// Has all hands work, and does the job beside them or after them.
fn work_all_hands<R: Threads + Sync, G: Gate, J: FnMut() -> B, B>(
    crew: &Crew<'_, R, G>,
    board: &Board,
    task: Task,
    start: Start,
    job: &mut J,
    hands: &mut [Hand],
) -> B
    requires table { board.now.shared.table_id.words ≡ 1 }
    requires workers { length hands.old ≤ 64 }
    requires seated { All (IsSeated board.now.shared.table_id board.now.shared.key task) hands.old }
    requires job { J.pre job.old }
    ensures hands { All (IsBack board.now.shared.table_id) hands.new }
    ensures job { J.step job.old result job.new }
{
    match start {
        Start::AtOnce => {
            let threads = processors(crew.rt).min(board.slot_count()).max(1);
            work_at_once(crew, board, task, 0, threads, hands);
            job()
        }
        Start::OnDemand => {
            work_on_demand(crew, board, task, 0, hands);
            job()
        }
        Start::Beside(pixels) => {
            let threads = threads_beside(crew.rt, pixels, board.slot_count());
            work_with(crew, board, task, 0, threads, job, hands)
        }
    }
}

/// Has all tiles drawn and worked on by the workers, and the job done.
pub(crate) fn run<R: Threads + Sync, G: Gate, J: FnMut() -> B, B>(
    crew: &Crew<'_, R, G>,
    board: &Board,
    first: &mut Hand,
    mut hands: Vec<Hand>,
    task: Task,
    start: Start,
    job: &mut J,
) -> B
    requires table { board.now.shared.table_id.words ≡ 1 }
    requires lead { Leads board.now.shared.table_id board.now.shared.key task crew.now.workers 0 false first.old }
    requires empty { hands.items ≡ [] }
    requires room { crew.now.workers ≤ vec_capacity hands }
    requires job { J.pre job.old }
    ensures lead { Leads board.now.shared.table_id board.now.shared.key task 0 0 true first.new }
    ensures job { J.step job.old result job.new }
{
    split_hands(board, first, &mut hands, crew.workers as usize, task);
    let answer = work_all_hands(crew, board, task, start, job, hands.as_mut_slice());
    join_hands(board, first, hands, task);
    answer
}
