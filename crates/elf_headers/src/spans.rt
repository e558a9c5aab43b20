//! The addresses of the loads, sorted.
ghost use Rattle.std.specs.Prelude.{◌≡◌, ◌+◌, ◌≤◌, ◌<◌, length, All, None, IfOk};
ghost use Rattle.std.specs.List.Sorted.{IsNonDecreasingBy, IsPermutation};
ghost use Rattle.elf_headers.specs.Header.{program_header_count, HasTable};
ghost use Rattle.elf_headers.specs.Segments.{segments_fault};
ghost use Rattle.elf_headers.specs.Spans.{span_at, spans_of, IsLow};

use crate::segments::{count_program_headers, read_program_header};
use std::alloc::{AllocError, Global};

/// The addresses of a load, up to `end`, and the number of its program header.
#[derive(Clone, Copy, Drop)]
pub struct Span {
    pub address: u64,
    pub end: u64,
    pub header: u16,
}

/// The addresses of a program header, where it is a load.
#[tactic(auto, unfolding(crate::specs::Spans::span_at))]
fn span_of(file: &[u8], header: u16) -> Option<Span>
    requires table { HasTable file.now }
    requires accepted { segments_fault file.now ≡ None }
    requires below { header < program_header_count file.now }
    ensures { result ≡ span_at file.now header }
{
    let s = read_program_header(file, header);
    if s.is_load() {
        Some(Span {
            address: s.address,
            end: s.address + s.memory_size,
            header,
        })
    } else {
        None
    }
}

/// The addresses of the loads, in the order of their program headers.
fn spans_in_file(alloc: Global, file: &[u8]) -> Result<Vec<Span>, AllocError>
    requires table { HasTable file.now }
    requires accepted { segments_fault file.now ≡ None }
    ensures { IfOk result (λ spans. spans.items ≡ spans_of file.now) }
{
    let mut spans = Vec::new(alloc);
    for header in 0..count_program_headers(file) {
        match span_of(file, header) {
            Some(span) => spans.push(span)?,
            None => {}
        }
    }
    Ok(spans)
}

/// The addresses of the loads, in order of address.
pub fn sorted_spans(alloc: Global, file: &[u8]) -> Result<Vec<Span>, AllocError>
    requires table { HasTable file.now }
    requires accepted { segments_fault file.now ≡ None }
    ensures all { IfOk result (λ spans. IsPermutation (spans_of file.now) spans.items) }
    ensures sorted { IfOk result (λ spans. IsNonDecreasingBy (λ s. s.address) spans.items) }
    ensures low { IfOk result (λ spans. All IsLow spans.items) }
{
    let mut spans = spans_in_file(alloc, file)?;
    spans.sort_by_key(|s| s.address)?;
    Ok(spans)
}
