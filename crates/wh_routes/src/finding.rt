//! Finding the resource that a path names.

ghost use Rattle.std.specs.Prelude.{◌≡◌, ◌≢◌, ℕ, ◌<◌, ◌^◌, List, [], ◌∷◌, IfSome, IfNone, codes};
ghost use Rattle.std.specs.Fmt.{decimal};
ghost use Rattle.wh_routes.specs.declared.route.InstancePart.{InstancePart};
ghost use Rattle.wh_routes.specs.declared.route.Route.{Route};
ghost use Rattle.wh_routes.specs.Separators.{pieces_at};
ghost use Rattle.wh_routes.specs.Paths.{HasPartPieces, HasPieces, NamesRoute};

use crate::names::{digest_in, is_name, number_in};
use crate::pieces::{cut, is_same};
use crate::route::{InstancePart, Route};

// What a path of one piece names.
fn alone<'a>(piece: &[u8]) -> Option<Route<'a>>
    ensures found { IfSome result (λ r. HasPieces r (piece.now ∷ [])) }
    ensures none { IfNone result ((r : Route) → ¬ (HasPieces r (piece.now ∷ []))) }
{
    if is_same(piece, b"") {
        return Some(Route::Page);
    }
    if is_same(piece, b"healthz") {
        return Some(Route::Health);
    }
    if is_same(piece, b"readyz") {
        return Some(Route::Ready);
    }
    if is_same(piece, b"metrics") {
        return Some(Route::Metrics);
    }
    None
}

// What a path names by its one piece behind `/v1/`.
fn whole<'a>(piece: &[u8]) -> Option<Route<'a>>
    ensures found { IfSome result (λ r. HasPieces r (codes "v1" ∷ piece.now ∷ [])) }
    ensures none { IfNone result ((r : Route) → ¬ (HasPieces r (codes "v1" ∷ piece.now ∷ []))) }
{
    if is_same(piece, b"report") {
        return Some(Route::Report);
    }
    if is_same(piece, b"epoch") {
        return Some(Route::Epoch);
    }
    if is_same(piece, b"scan") {
        return Some(Route::Scan);
    }
    if is_same(piece, b"stop") {
        return Some(Route::Stop);
    }
    if is_same(piece, b"modules") {
        return Some(Route::Modules);
    }
    if is_same(piece, b"instances") {
        return Some(Route::Instances);
    }
    None
}

// What a path names behind `/v1/modules/`.
fn module<'a>(rest: &[u8]) -> Option<Route<'a>>
    ensures found { IfSome result (λ r. HasPieces r (codes "v1" ∷ codes "modules" ∷ pieces_at 47 rest.now)) }
    ensures none { IfNone result ((r : Route) →
        ¬ (HasPieces r (codes "v1" ∷ codes "modules" ∷ pieces_at 47 rest.now))) }
{
    let (piece, rest) = cut(rest, b'/');
    let digest = digest_in(piece)?;
    let Some(rest) = rest else {
        return Some(Route::Module(digest));
    };
    let (piece, rest) = cut(rest, b'/');
    if let Some(_) = rest {
        return None;
    }
    if is_same(piece, b"exports") {
        return Some(Route::Exports(digest));
    }
    None
}

// What of a call its one piece behind its place names.
fn of_call(place: u64, piece: &[u8]) -> Option<InstancePart>
    requires { place < 2 ^ 64 }
    ensures found { IfSome result
        (λ part. HasPartPieces part (codes "calls" ∷ decimal place ∷ piece.now ∷ [])) }
    ensures none { IfNone result ((part : InstancePart) →
        ¬ (HasPartPieces part (codes "calls" ∷ decimal place ∷ piece.now ∷ []))) }
{
    if is_same(piece, b"fuel") {
        return Some(InstancePart::Fuel(place));
    }
    if is_same(piece, b"cancel") {
        return Some(InstancePart::Cancel(place));
    }
    if is_same(piece, b"retry") {
        return Some(InstancePart::Retry(place));
    }
    None
}

// What of an instance's calls a path names behind `calls/`.
fn call(rest: &[u8]) -> Option<InstancePart>
    ensures found { IfSome result (λ part. HasPartPieces part (codes "calls" ∷ pieces_at 47 rest.now)) }
    ensures none { IfNone result ((part : InstancePart) →
        ¬ (HasPartPieces part (codes "calls" ∷ pieces_at 47 rest.now))) }
{
    let (piece, rest) = cut(rest, b'/');
    let place = number_in(piece)?;
    let Some(rest) = rest else {
        return Some(InstancePart::Call(place));
    };
    let (piece, rest) = cut(rest, b'/');
    if let Some(_) = rest {
        return None;
    }
    of_call(place, piece)
}

// What of an instance a path names by its one piece behind the name.
fn single(piece: &[u8]) -> Option<InstancePart>
    ensures found { IfSome result (λ part. HasPartPieces part (piece.now ∷ [])) }
    ensures none { IfNone result ((part : InstancePart) → ¬ (HasPartPieces part (piece.now ∷ []))) }
{
    if is_same(piece, b"calls") {
        return Some(InstancePart::Calls);
    }
    if is_same(piece, b"output") {
        return Some(InstancePart::Output);
    }
    if is_same(piece, b"memory") {
        return Some(InstancePart::Memory);
    }
    if is_same(piece, b"transcript") {
        return Some(InstancePart::Transcript);
    }
    if is_same(piece, b"forgotten") {
        return Some(InstancePart::Forgotten);
    }
    None
}

// What of an instance a path names behind its name and a `/`.
fn part(rest: &[u8]) -> Option<InstancePart>
    ensures found { IfSome result (λ part. HasPartPieces part (pieces_at 47 rest.now)) }
    ensures none { IfNone result ((part : InstancePart) → ¬ (HasPartPieces part (pieces_at 47 rest.now))) }
{
    let (piece, rest) = cut(rest, b'/');
    let Some(rest) = rest else {
        return single(piece);
    };
    if !is_same(piece, b"calls") {
        return None;
    }
    call(rest)
}

// What a path names behind `/v1/instances/`.
fn instance(rest: &[u8]) -> Option<Route<'_>>
    ensures found { IfSome result (λ r. HasPieces r (codes "v1" ∷ codes "instances" ∷ pieces_at 47 rest.now)) }
    ensures none { IfNone result ((r : Route) →
        ¬ (HasPieces r (codes "v1" ∷ codes "instances" ∷ pieces_at 47 rest.now))) }
{
    let (name, rest) = cut(rest, b'/');
    if !is_name(name) {
        return None;
    }
    let Some(rest) = rest else {
        return Some(Route::Instance(name, InstancePart::Itself));
    };
    let part = part(rest)?;
    Some(Route::Instance(name, part))
}

// What a path names behind `/v1/`.
fn versioned(rest: &[u8]) -> Option<Route<'_>>
    ensures found { IfSome result (λ r. HasPieces r (codes "v1" ∷ pieces_at 47 rest.now)) }
    ensures none { IfNone result ((r : Route) → ¬ (HasPieces r (codes "v1" ∷ pieces_at 47 rest.now))) }
{
    let (piece, rest) = cut(rest, b'/');
    let Some(rest) = rest else {
        return whole(piece);
    };
    if is_same(piece, b"modules") {
        return module(rest);
    }
    if is_same(piece, b"instances") {
        return instance(rest);
    }
    None
}

// What a path names behind its first `/`.
fn rooted(rest: &[u8]) -> Option<Route<'_>>
    ensures found { IfSome result (λ r. HasPieces r (pieces_at 47 rest.now)) }
    ensures none { IfNone result ((r : Route) → ¬ (HasPieces r (pieces_at 47 rest.now))) }
{
    let (piece, rest) = cut(rest, b'/');
    let Some(rest) = rest else {
        return alone(piece);
    };
    if is_same(piece, b"v1") {
        return versioned(rest);
    }
    None
}

// What lies behind the `/` that a path begins with.
fn behind_root(path: &[u8]) -> Option<&[u8]>
    ensures some { IfSome result (λ rest. path.now ≡ 47 ∷ rest.now) }
    ensures none { IfNone result ((rest : List ℕ) → path.now ≢ 47 ∷ rest) }
{
    path.strip_prefix(b"/".as_slice())
}

/// Finds the resource that a path names; the path comes without its query. `None` where it names none.
pub fn find_route(path: &[u8]) -> Option<Route<'_>>
    ensures found { IfSome result (λ r. NamesRoute path.now r) }
    ensures none { IfNone result ((r : Route) → ¬ (NamesRoute path.now r)) }
{
    match behind_root(path) {
        Some(rest) => rooted(rest),
        None => None,
    }
}
