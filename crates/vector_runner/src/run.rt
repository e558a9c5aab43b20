//! The answers to the vectors of a file, by some workers at once.
ghost use Rattle.std.specs.Prelude.{◌≡◌, ℕ, ◌*◌, ◌<◌, ◌≤◌, All, IfOk, IsOk, length, map};
ghost use Rattle.std.specs.Prelude.{slice_index_or};
ghost use Rattle.std.specs.List.{flat_map};
ghost use Rattle.std.specs.Fork.{slice_chunk};
ghost use Rattle.vector_runner.specs.Grammar.{IsVector, most_lines};
ghost use Rattle.vector_runner.specs.Run.{answers, lines_of};
ghost use Rattle.vector_runner.specs.Told.{vector_told};

use crate::answer::answer_of;
use crate::vector::Vector;
use edge_io::Gate;
use sm_types::{Bytes, Memory, VecLen};
use std::alloc::{AllocError, Global};
use std::thread;
use std::thread::Threads;

/// The answers to some vectors, in order.
#[tactic(auto, unfolding(crate::specs::Run::answers))]
fn answer_all(
    alloc: Global,
    vl: VecLen,
    svl: VecLen,
    vectors: &[Vector],
) -> Result<Vec<Bytes>, Memory>
    requires { All (IsVector vl svl) (map vector_told vectors.now) }
    ensures { IfOk result (λ lines. map (λ line. line.items) lines.items
        ≡ answers vl svl (map vector_told vectors.now)) }
{
    let mut lines = Vec::new(alloc);
    for vector in vectors {
        let line = answer_of(alloc, vl, svl, vector)?;
        if lines.push(line).is_err() {
            return Err(Memory);
        }
    }
    Ok(lines)
}

/// How many vectors a worker has, where the first workers have as many each.
fn share_size(count: usize, workers: usize) -> usize
    requires { 1 ≤ workers }
    ensures all { count ≤ workers * result }
    ensures small { result ≤ count }
{
    if count % workers == 0 {
        count / workers
    } else {
        count / workers + 1
    }
}

/// The share of a worker: so many vectors behind those of the workers before it, or what is left of them.
fn share_of(vectors: &[Vector], size: usize, worker: usize) -> &[Vector]
    requires size { size ≤ 2048 }
    requires worker { worker < 64 }
    ensures { result.now ≡ slice_chunk vectors.now size worker }
{
    let (_, rest) = vectors.split_at(vectors.len().min(worker * size));
    let (share, _) = rest.split_at(rest.len().min(size));
    share
}

/// What a worker does: it passes the gate before its first line, if it has one, and answers its share.
fn work<G: Gate>(
    alloc: Global,
    vl: VecLen,
    svl: VecLen,
    vectors: &[Vector],
    size: usize,
    worker: usize,
    gate: &G,
) -> Result<Vec<Bytes>, Memory>
    requires vectors { All (IsVector vl svl) (map vector_told vectors.now) }
    requires size { size ≤ 2048 }
    requires worker { worker < 64 }
    ensures { IfOk result (λ lines. map (λ line. line.items) lines.items
        ≡ answers vl svl (map vector_told (slice_chunk vectors.now size worker))) }
{
    let share = share_of(vectors, size, worker);
    if !share.is_empty() {
        gate.pass(worker as u32, 0, (worker * size) as u32);
    }
    answer_all(alloc, vl, svl, share)
}

/// The lines of the workers, one after another: from the last worker to the first, whose lines are put before
/// those that follow. `Memory` is want of memory, of a worker or here.
fn join_lines(
    alloc: Global,
    mut shares: Vec<Result<Vec<Bytes>, Memory>>,
) -> Result<Vec<Bytes>, Memory>
    ensures lines { IfOk result (λ lines. map (λ line. line.items) lines.items
        ≡ flat_map lines_of shares.items) }
    ensures answered { IfOk result (λ lines. All (λ share. IsOk share) shares.items) }
{
    let mut lines = Vec::new(alloc);
    while let Some(share) = shares.pop() {
        let mut first = share?;
        if first.append(&mut lines).is_err() {
            return Err(Memory);
        }
        lines = first;
    }
    Ok(lines)
}

/// What each of so many workers answers, in threads of the system.
fn answer_shares<R: Threads + Sync, G: Gate + Sync>(
    rt: &R,
    alloc: Global,
    vectors: &[Vector],
    vl: VecLen,
    svl: VecLen,
    workers: usize,
    size: usize,
    gate: &G,
) -> Result<Vec<Result<Vec<Bytes>, Memory>>, AllocError>
    requires workers { workers ≤ 64 }
    requires size { size ≤ 2048 }
    requires vectors { All (IsVector vl svl) (map vector_told vectors.now) }
    ensures count { IfOk result (λ shares. length shares.items ≡ workers) }
    ensures each { IfOk result (λ shares. (i : ℕ) (d : _) → i < workers
        → IfOk (slice_index_or shares.items i d) (λ lines. map (λ line. line.items) lines.items
        ≡ answers vl svl (map vector_told (slice_chunk vectors.now size i)))) }
{
    let share = |worker: usize| -> Result<Vec<Bytes>, Memory>
        requires vectors { All (IsVector vl svl) (map vector_told vectors.now) }
        requires size { size ≤ 2048 }
        requires worker { worker < 64 }
        ensures { IfOk result (λ lines. map (λ line. line.items) lines.items
            ≡ answers vl svl (map vector_told (slice_chunk vectors.entry.now size worker))) }
    { work(alloc, vl, svl, vectors, size, worker, gate) };
    thread::map_indices(rt, alloc, workers, &share)
}

/// The answers to vectors, in order, by so many workers, 1 to 64, in threads of the system. There are at most
/// 2,048 vectors, each of which is that of a line for these lengths. Worker `w` calls `gate.pass(w, 0, l)`
/// once, where `l` is the index of its first line, and one without a line does not: tests show it, no clause
/// says it, nor that it comes before the line. No shared word is touched. `Memory`, which is want of memory,
/// is the only other answer. The call may wait.
pub fn run_vectors<R: Threads + Sync, G: Gate + Sync>(
    rt: &R,
    alloc: Global,
    vectors: &[Vector],
    vl: VecLen,
    svl: VecLen,
    workers: u32,
    gate: &G,
) -> Result<Vec<Bytes>, Memory>
    requires some { 1 ≤ workers }
    requires workers { workers ≤ 64 }
    requires few { length vectors.now ≤ most_lines }
    requires vectors { All (IsVector vl svl) (map vector_told vectors.now) }
    ensures { IfOk result (λ lines. map (λ line. line.items) lines.items
        ≡ answers vl svl (map vector_told vectors.now)) }
{
    let count = workers as usize;
    let size = share_size(vectors.len(), count);
    match answer_shares(rt, alloc, vectors, vl, svl, count, size, gate) {
        Ok(shares) => join_lines(alloc, shares),
        Err(_) => Err(Memory),
    }
}
