ghost use Rattle.std.specs.Prelude.{◌≡◌, ◌<◌, All, None, length, map, is_some, true};
ghost use Rattle.std.specs.Prelude.{slice_index_or};
ghost use Rattle.std.specs.List.{AllZip};
ghost use Rattle.pages_server.specs.Worked.{Leads};

use crate::{Endpoint, Handler};
use edges::{Accept, Accepted};
use std::sync::Wait;
use std::thread;
use std::thread::{Threads, join};

/// A token of a worker, and the mark that it got when the listener's round was over.
#[derive(Drop)]
pub struct Served<T, E> {
    pub token: T,
    pub closing: Option<E>,
}

/// Starts a thread for each token, which takes connections and hands each to the handler with its
/// token, until the round of the listener is over. Then each token has the mark.
pub fn workers<R: Threads + Wait + Sync, A: Accept + Sync, H: Handler + Sync>(
    rt: &R,
    endpoint: &Endpoint<'_, A, H>,
    tokens: &mut [Served<H::Token, A::Closing>],
)
    requires fits { All (λ served. H.fits endpoint.now.handler served.token) tokens.old }
    requires open { All (λ served. served.closing ≡ None) tokens.old }
    ensures fits { All (λ served. H.fits endpoint.now.handler served.token) tokens.new }
    ensures closed { All (λ served. is_some served.closing ≡ true) tokens.new }
    ensures numbers { map (λ served. H.number served.token) tokens.new
        ≡ map (λ served. H.number served.token) tokens.old }
    ensures worked { AllZip (λ old new. Leads (H.handled endpoint.now.handler) old.token new.token) tokens.old
        tokens.new }
{
    let count = tokens.len();
    if count == 0 {
        return;
    }
    let serve = |_place: usize, served: &mut Served<H::Token, A::Closing>|
        requires { H.fits endpoint.now.handler served.old.token }
        ensures { H.fits endpoint.entry.now.handler served.new.token × (is_some served.new.closing ≡ true) ×
            (H.number served.new.token ≡ H.number served.old.token)
            × Leads (H.handled endpoint.entry.now.handler) served.old.token served.new.token }
    { work(rt, endpoint, served) };
    thread::for_each_mut(rt, tokens, count, &serve);
}

// Hands connections to the handler until the round of the listener is over. A listener that failed
// is asked again.
fn work<R: Wait, A: Accept, H: Handler>(
    rt: &R,
    endpoint: &Endpoint<'_, A, H>,
    served: &mut Served<H::Token, A::Closing>,
)
    requires { H.fits endpoint.now.handler served.old.token }
    ensures fits { H.fits endpoint.now.handler served.new.token }
    ensures closed { is_some served.new.closing ≡ true }
    ensures number { H.number served.new.token ≡ H.number served.old.token }
    ensures worked { Leads (H.handled endpoint.now.handler) served.old.token served.new.token }
{
    let mut faults = 0;
    for _ in rt.forever() {
        match endpoint.listener.accept(&mut faults) {
            Ok(Accepted::Pair(mut source, mut sink)) => {
                endpoint
                    .handler
                    .handle(&mut served.token, &mut source, &mut sink);
            }
            Ok(Accepted::Closed(mark)) => {
                served.closing = Some(mark);
                return;
            }
            Err(_) => {}
        }
    }
    unreachable!()
}

/// Workers of two listeners at the same time. They come back once the rounds of both are over.
pub fn both<R: Threads + Wait + Sync, A: Accept + Sync, H: Handler + Sync>(
    rt: &R,
    front: (&Endpoint<'_, A, H>, Vec<Served<H::Token, A::Closing>>),
    back: (&Endpoint<'_, A, H>, Vec<Served<H::Token, A::Closing>>),
) -> (
    Vec<Served<H::Token, A::Closing>>,
    Vec<Served<H::Token, A::Closing>>,
)
    requires front_fits { All (λ served. H.fits front.0.now.handler served.token) front.1.items }
    requires front_open { All (λ served. served.closing ≡ None) front.1.items }
    requires back_fits { All (λ served. H.fits back.0.now.handler served.token) back.1.items }
    requires back_open { All (λ served. served.closing ≡ None) back.1.items }
    ensures front_fits { All (λ served. H.fits front.entry.0.now.handler served.token) result.0.items }
    ensures front_numbers { map (λ served. H.number served.token) result.0.items
        ≡ map (λ served. H.number served.token) front.entry.1.items }
    ensures front_worked { AllZip (λ old new. Leads (H.handled front.entry.0.now.handler) old.token new.token)
        front.entry.1.items result.0.items }
    ensures back_fits { All (λ served. H.fits back.entry.0.now.handler served.token) result.1.items }
    ensures back_numbers { map (λ served. H.number served.token) result.1.items
        ≡ map (λ served. H.number served.token) back.entry.1.items }
    ensures back_worked { AllZip (λ old new. Leads (H.handled back.entry.0.now.handler) old.token new.token)
        back.entry.1.items result.1.items }
{
    let (front_endpoint, front_tokens) = front;
    let (back_endpoint, back_tokens) = back;
    join(
        rt,
        move || -> Vec<Served<H::Token, A::Closing>>
            requires { All (λ served. H.fits front_endpoint.now.handler served.token) front_tokens.items × All
                (λ served. served.closing ≡ None) front_tokens.items }
            ensures { All (λ served. H.fits front_endpoint.entry.now.handler served.token) result.items ×
                (map (λ served. H.number served.token) result.items
                ≡ map (λ served. H.number served.token) front_tokens.items) ×
                AllZip (λ old new. Leads (H.handled front_endpoint.entry.now.handler) old.token new.token)
                front_tokens.items result.items }
        { at_work(rt, front_endpoint, front_tokens) },
        move || -> Vec<Served<H::Token, A::Closing>>
            requires { All (λ served. H.fits back_endpoint.now.handler served.token) back_tokens.items × All
                (λ served. served.closing ≡ None) back_tokens.items }
            ensures { All (λ served. H.fits back_endpoint.entry.now.handler served.token) result.items ×
                (map (λ served. H.number served.token) result.items
                ≡ map (λ served. H.number served.token) back_tokens.items) ×
                AllZip (λ old new. Leads (H.handled back_endpoint.entry.now.handler) old.token new.token)
                back_tokens.items result.items }
        { at_work(rt, back_endpoint, back_tokens) },
    )
}

/// Workers of three listeners at the same time. They come back once the rounds of all are over.
/// Each argument is an endpoint and the tokens of its workers; the tokens come back in the same
/// order. That they have the mark isn't said, as it is by `workers`.
pub fn three<R: Threads + Wait + Sync, A: Accept + Sync, H: Handler + Sync>(
    rt: &R,
    front: (&Endpoint<'_, A, H>, Vec<Served<H::Token, A::Closing>>),
    middle: (&Endpoint<'_, A, H>, Vec<Served<H::Token, A::Closing>>),
    back: (&Endpoint<'_, A, H>, Vec<Served<H::Token, A::Closing>>),
) -> (
    Vec<Served<H::Token, A::Closing>>,
    Vec<Served<H::Token, A::Closing>>,
    Vec<Served<H::Token, A::Closing>>,
)
    requires front_fits { All (λ served. H.fits front.0.now.handler served.token) front.1.items }
    requires front_open { All (λ served. served.closing ≡ None) front.1.items }
    requires middle_fits { All (λ served. H.fits middle.0.now.handler served.token) middle.1.items }
    requires middle_open { All (λ served. served.closing ≡ None) middle.1.items }
    requires back_fits { All (λ served. H.fits back.0.now.handler served.token) back.1.items }
    requires back_open { All (λ served. served.closing ≡ None) back.1.items }
    ensures front_fits { All (λ served. H.fits front.entry.0.now.handler served.token) result.0.items }
    ensures front_numbers { map (λ served. H.number served.token) result.0.items
        ≡ map (λ served. H.number served.token) front.entry.1.items }
    ensures front_worked { AllZip (λ old new. Leads (H.handled front.entry.0.now.handler) old.token new.token)
        front.entry.1.items result.0.items }
    ensures middle_fits { All (λ served. H.fits middle.entry.0.now.handler served.token) result.1.items }
    ensures middle_numbers { map (λ served. H.number served.token) result.1.items
        ≡ map (λ served. H.number served.token) middle.entry.1.items }
    ensures middle_worked { AllZip (λ old new. Leads (H.handled middle.entry.0.now.handler) old.token new.token)
        middle.entry.1.items result.1.items }
    ensures back_fits { All (λ served. H.fits back.entry.0.now.handler served.token) result.2.items }
    ensures back_numbers { map (λ served. H.number served.token) result.2.items
        ≡ map (λ served. H.number served.token) back.entry.1.items }
    ensures back_worked { AllZip (λ old new. Leads (H.handled back.entry.0.now.handler) old.token new.token)
        back.entry.1.items result.2.items }
{
    let (front_endpoint, front_tokens) = front;
    let (middle_endpoint, middle_tokens) = middle;
    let (back_endpoint, back_tokens) = back;
    let (front, (middle, back)) = join(
        rt,
        move || -> Vec<Served<H::Token, A::Closing>>
            requires { All (λ served. H.fits front_endpoint.now.handler served.token) front_tokens.items × All
                (λ served. served.closing ≡ None) front_tokens.items }
            ensures { All (λ served. H.fits front_endpoint.entry.now.handler served.token) result.items ×
                (map (λ served. H.number served.token) result.items
                ≡ map (λ served. H.number served.token) front_tokens.items) ×
                AllZip (λ old new. Leads (H.handled front_endpoint.entry.now.handler) old.token new.token)
                front_tokens.items result.items }
        { at_work(rt, front_endpoint, front_tokens) },
        move || -> (
            Vec<Served<H::Token, A::Closing>>,
            Vec<Served<H::Token, A::Closing>>,
        )
            requires { All (λ served. H.fits middle_endpoint.now.handler served.token) middle_tokens.items × All
                (λ served. served.closing ≡ None) middle_tokens.items × All
                (λ served. H.fits back_endpoint.now.handler served.token) back_tokens.items × All
                (λ served. served.closing ≡ None) back_tokens.items }
            ensures { All (λ served. H.fits middle_endpoint.entry.now.handler served.token) result.0.items ×
                (map (λ served. H.number served.token) result.0.items
                ≡ map (λ served. H.number served.token) middle_tokens.items) ×
                AllZip (λ old new. Leads (H.handled middle_endpoint.entry.now.handler) old.token new.token)
                middle_tokens.items result.0.items × All
                (λ served. H.fits back_endpoint.entry.now.handler served.token) result.1.items ×
                (map (λ served. H.number served.token) result.1.items
                ≡ map (λ served. H.number served.token) back_tokens.items) ×
                AllZip (λ old new. Leads (H.handled back_endpoint.entry.now.handler) old.token new.token)
                back_tokens.items result.1.items }
        {
            both(
                rt,
                (middle_endpoint, middle_tokens),
                (back_endpoint, back_tokens),
            )
        },
    );
    (front, middle, back)
}

// The workers once the round of their listener is over.
fn at_work<R: Threads + Wait + Sync, A: Accept + Sync, H: Handler + Sync>(
    rt: &R,
    endpoint: &Endpoint<'_, A, H>,
    mut tokens: Vec<Served<H::Token, A::Closing>>,
) -> Vec<Served<H::Token, A::Closing>>
    requires fits { All (λ served. H.fits endpoint.now.handler served.token) tokens.items }
    requires open { All (λ served. served.closing ≡ None) tokens.items }
    ensures fits { All (λ served. H.fits endpoint.now.handler served.token) result.items }
    ensures numbers { map (λ served. H.number served.token) result.items
        ≡ map (λ served. H.number served.token) tokens.items }
    ensures worked { AllZip (λ old new. Leads (H.handled endpoint.now.handler) old.token new.token) tokens.items
        result.items }
{
    workers(rt, endpoint, tokens.as_mut_slice());
    tokens
}
