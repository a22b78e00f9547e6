//! The route of a path, by `matchit`.

ghost use Rattle.std.specs.Prelude.{◌≡◌, ℕ, IfOk, OnOk, MatchOption};
ghost use Rattle.matchit.specs.Route.{parse_route};
ghost use Rattle.eco_wire.specs.Table.{table, with_route, HasForm, pattern_of};
ghost use Rattle.eco_wire.specs.Routes.{IsPathOf, RoutesAreOne};

use crate::numbers::read_number;
use crate::request::{Method, Span};
use crate::routes::{Pattern, Route, RouteFault};
use eco_common::Memory;
use std::alloc::Global;
use std::str;

/// The table of routes.
#[derive(Drop)]
pub struct Router {
    patterns: matchit::Router<Pattern>,
    ghost rows: { patterns ≡ table },
}

fn add(patterns: &mut matchit::Router<Pattern>, path: &str, pattern: Pattern) -> Result<(), Memory>
    ensures { OnOk result (patterns.new ≡ with_route (parse_route path.now) pattern patterns.old) }
{
    patterns.insert(path, pattern).map_err(|_| Memory)
}

/// The route of the revision whose number stands in a path of this form, if it is one.
fn read_revision(path: &[u8]) -> Option<Route>
    requires { HasForm Pattern.Revision path.now }
    ensures { MatchOption result ((n : ℕ) → ¬ (IsPathOf (Route.Revision n) path.now))
        (λ route. IsPathOf route path.now) }
{
    let digits = &path[b"/revision/".len()..path.len() - b"/def".len()];
    Some(Route::Revision(read_number(digits)?))
}

/// The route of a path of this form.
fn read_path(pattern: Pattern, path: &[u8]) -> Option<Route>
    requires { HasForm pattern path.now }
    ensures { MatchOption result ((route : Route) → pattern_of route ≡ pattern → ¬ (IsPathOf route path.now))
        (λ route. IsPathOf route path.now) }
{
    let route = match pattern {
        Pattern::Front => Route::Front,
        Pattern::Spares => Route::Spares,
        Pattern::Order => {
            let start = b"/orders/".len();
            Route::Order(Span {
                start,
                len: path.len() - start,
            })
        }
        Pattern::Revision => return read_revision(path),
        Pattern::Plan => Route::Plan,
        Pattern::Commit => Route::Commit,
        Pattern::Withdraw => Route::Withdraw,
        Pattern::Hold => Route::Hold,
        Pattern::Release => Route::Release,
    };
    Some(route)
}

impl Router {
    ghost use Rattle.eco_wire.specs.Routes.{Routes, HasPath};

    /// The router of the table.
    pub fn new(alloc: Global) -> Result<Router, Memory>
        ensures { IfOk result (λ router. router.patterns ≡ table) }
    {
        let mut patterns = matchit::Router::new(alloc);
        add(&mut patterns, "/front", Pattern::Front)?;
        add(&mut patterns, "/spares", Pattern::Spares)?;
        add(&mut patterns, "/orders/{name}", Pattern::Order)?;
        add(&mut patterns, "/revision/{n}/def", Pattern::Revision)?;
        add(&mut patterns, "/plan", Pattern::Plan)?;
        add(&mut patterns, "/commit", Pattern::Commit)?;
        add(&mut patterns, "/withdraw", Pattern::Withdraw)?;
        add(&mut patterns, "/hold", Pattern::Hold)?;
        add(&mut patterns, "/release", Pattern::Release)?;
        Ok(Router { patterns })
    }

    fn find(&self, path: &[u8]) -> Option<Route>
        ensures { MatchOption result ((route : Route) → ¬ (HasPath route path.now)) (λ route. HasPath route path.now) }
    {
        let Ok(text) = str::from_utf8(path) else {
            return None;
        };
        let Ok(found) = self.patterns.at(text) else {
            return None;
        };
        read_path(*found.value, path)
    }

    /// The route of a request. It takes no memory.
    pub fn route(&self, method: &Method, path: &[u8]) -> Result<Route, RouteFault>
        ensures { Routes method.now path.now result }
    {
        let Some(route) = self.find(path) else {
            return Err(RouteFault::NoPath);
        };
        let allow = route.method();
        if *method == allow {
            Ok(route)
        } else {
            Err(RouteFault::WrongMethod { allow })
        }
    }
}

/// A law of the table: a path has one route at most.
pub fn routes_are_one()
    ensures { RoutesAreOne }
{}
