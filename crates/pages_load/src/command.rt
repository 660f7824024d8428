ghost use Rattle.std.specs.Prelude.{◌≡◌, ◌≤◌, ◌≢◌, ℕ, Some, None, true, false, map, string_bytes};
ghost use Rattle.std.specs.Prelude.{IfSome};
ghost use Rattle.std.specs.Option.{option_and_then};
ghost use Rattle.edges.specs.Faults.{Rose};
ghost use Rattle.pg_text.specs.Numbers.{whole_number};
ghost use Rattle.pages_load.specs.Load.{HasLoaded, IsUntold, number_asked, of_pages};

use crate::running::run;
use edges::{Ledger, Sink, Steps};
use http_out::write;
use load_gen::MAX_PAGES;
use pg_text::whole_number;
use std::alloc::Global;

/// Talks with a generated site in memory, and writes five lines with the numbers of that to the
/// sink. The words are `load` and how many pages it has, from 1 to 1,000. The answer is the
/// program's status: 0, 1 for other words, 4 where writing failed, and 5 where memory ran out.
pub fn load<K: Sink, L: Ledger>(
    alloc: Global,
    words: &[String],
    sink: &mut K,
    steps: &mut Steps<L>,
) -> u8
    ensures told { (number : ℕ) → number_asked (map string_bytes words.now) ≡ Some number →
        result ≡ 0 → HasLoaded number steps.old steps.new (K.taken sink.old) (K.taken sink.new) false }
    ensures broken { (number : ℕ) → number_asked (map string_bytes words.now) ≡ Some number →
        result ≡ 4 → HasLoaded number steps.old steps.new (K.taken sink.old) (K.taken sink.new) true }
    ensures words { number_asked (map string_bytes words.now) ≡ None → result ≡ 1 }
    ensures only_words { result ≡ 1 → number_asked (map string_bytes words.now) ≡ None }
    ensures silent { result ≡ 1 → (sink.new ≡ sink.old) × (steps.new ≡ steps.old) }
    ensures untold { (number : ℕ) → number_asked (map string_bytes words.now) ≡ Some number →
        result ≡ 5 → IsUntold number steps.old steps.new }
    ensures unwritten { result ≡ 5 → sink.new ≡ sink.old }
    ensures statuses { result ≢ 0 → result ≢ 1 → result ≢ 4 → result ≡ 5 }
    ensures write { result ≡ 4 → Rose (K.faults sink.old) (K.faults sink.new) }
{
    let Some(number) = number_asked(words) else {
        return 1;
    };
    load_pages(alloc, number, sink, steps)
}

// Talks with a site of so many pages.
fn load_pages<K: Sink, L: Ledger>(
    alloc: Global,
    number: u32,
    sink: &mut K,
    steps: &mut Steps<L>,
) -> u8
    requires some { 1 ≤ number }
    requires few { number ≤ MAX_PAGES }
    ensures told { result ≡ 0 → HasLoaded number steps.old steps.new (K.taken sink.old) (K.taken sink.new) false }
    ensures broken { result ≡ 4 → HasLoaded number steps.old steps.new (K.taken sink.old) (K.taken sink.new) true }
    ensures untold { result ≡ 5 → IsUntold number steps.old steps.new }
    ensures unwritten { result ≡ 5 → sink.new ≡ sink.old }
    ensures statuses { result ≢ 0 → result ≢ 4 → result ≡ 5 }
    ensures write { result ≡ 4 → Rose (K.faults sink.old) (K.faults sink.new) }
{
    let Ok(lines) = run(alloc, number, steps) else {
        return 5;
    };
    let mut failed = false;
    write(sink, &mut failed, &lines);
    if failed { 4 } else { 0 }
}

// The number of pages that the words ask for, where they are those of this command.
fn number_asked(words: &[String]) -> Option<u32>
    ensures value { result ≡ number_asked (map string_bytes words.now) }
    ensures few { IfSome result (λ number. (1 ≤ number) × (number ≤ MAX_PAGES)) }
{
    match words {
        [word, digits] if word.as_str() == "load" => pages_in(digits.as_str().as_bytes()),
        _ => None,
    }
}

// The number of pages that digits say, where there may be so many.
fn pages_in(digits: &[u8]) -> Option<u32>
    ensures value { result ≡ option_and_then of_pages (whole_number digits.now) }
    ensures few { IfSome result (λ number. (1 ≤ number) × (number ≤ MAX_PAGES)) }
{
    let number = whole_number(digits)?;
    if number < 1 || number > MAX_PAGES as u64 {
        return None;
    }
    Some(number as u32)
}
