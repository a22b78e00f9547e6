//! The routes of the desk.

ghost use Rattle.std.specs.Prelude.{◌≡◌};
ghost use Rattle.eco_wire.specs.Routes.{method_for};

use crate::request::{Method, Span};
use thiserror::Error;

/// A route, with what its path holds.
#[derive(Clone, Copy, Debug, PartialEq, Eq)]
pub enum Route {
    /// `/front`
    Front,
    /// `/spares`
    Spares,
    /// `/orders/{name}`, with the place of the name in the path.
    Order(Span),
    /// `/revision/{n}/def`
    Revision(u64),
    /// `/plan`
    Plan,
    /// `/commit`
    Commit,
    /// `/withdraw`
    Withdraw,
    /// `/hold`
    Hold,
    /// `/release`
    Release,
}

impl Route {
    /// The one method that the route has.
    pub fn method(&self) -> Method
        ensures { result ≡ method_for self.now }
    {
        match self {
            Route::Front | Route::Spares | Route::Order(_) | Route::Revision(_) => Method::Get,
            Route::Plan | Route::Commit | Route::Withdraw | Route::Hold | Route::Release => {
                Method::Post
            }
        }
    }
}

/// Why a request has no route.
#[derive(Clone, Copy, Debug, Drop, PartialEq, Eq, Error)]
pub enum RouteFault {
    #[error("no route has this path")]
    NoPath,
    #[error("the route of this path has the method {allow:?}")]
    WrongMethod { allow: Method },
}

/// What a path of the table looks like.
#[derive(Clone, Copy, Debug, PartialEq, Eq)]
pub(crate) enum Pattern {
    Front,
    Spares,
    Order,
    Revision,
    Plan,
    Commit,
    Withdraw,
    Hold,
    Release,
}
