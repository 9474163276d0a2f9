//! Which resources want a token, and whose.

ghost use Rattle.std.specs.Prelude.{◌≡◌};
ghost use Rattle.wh_front.specs.Access.{is_open_to_all, is_for_operator};

use wh_routes::Route;

/// Returns whether whoever asks for the resource needs no token.
pub fn is_open(to: &Route<'_>) -> bool
    ensures { result ≡ is_open_to_all to.now }
{
    match to {
        Route::Page | Route::Health | Route::Ready => true,
        _ => false,
    }
}

/// Returns whether the resource is an operator's alone.
pub fn is_for_operators(to: &Route<'_>) -> bool
    ensures { result ≡ is_for_operator to.now }
{
    match to {
        Route::Metrics | Route::Report | Route::Epoch | Route::Scan | Route::Stop => true,
        _ => false,
    }
}
