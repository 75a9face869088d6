//! The routes.
ghost use Rattle.std.specs.Prelude.{◌≡◌, Some, None, IfOk, OnOk};
ghost use Rattle.matchit.specs.Route.{parse_route};
ghost use Rattle.mds_http.specs.Routes.{Fits, with_scan, routes, route_at};

use crate::request::aim::Route;
use matchit::{InsertError, Router};
use std::alloc::{AllocError, Global};
use std::marker::Model;

/// The routes that requests are matched against.
pub struct Face {
    router: Router<Route>,
}

// By hand: crates above cite it.
impl Drop for Face {
    fn drop(self) {
        let Face { router: _ } = self;
    }
}

impl Model for Face {
    ghost use Rattle.std.specs.Prelude.{◌≡◌};
    ghost use Rattle.mds_http.specs.Routes.{routes};

    ghost Value = { Unit {0} };

    ghost view = { λ _. tt };

    ghost invariant = { λ face. face.router ≡ routes };
}

impl Face {
    ghost use Rattle.std.specs.Prelude.{◌≡◌};
    ghost use Rattle.mds_http.specs.Routes.{route_at};

    /// The five routes.
    ///
    /// # Errors
    ///
    /// `AllocError` where there is no memory for them.
    pub fn open(alloc: Global) -> Result<Face, AllocError> {
        let router = router_of(alloc)?;
        Ok(Face { router })
    }

    pub(crate) fn route_of(&self, path: &str) -> Option<Route>
        ensures { result ≡ route_at path.now }
    {
        match self.router.at(path) {
            Ok(found) => Some(*found.value),
            Err(_) => None,
        }
    }
}

fn add_route(router: &mut Router<Route>, text: &str, route: Route) -> Result<(), AllocError>
    requires { Fits (parse_route text.now) router.old }
    ensures { OnOk result (router.new ≡ with_scan (parse_route text.now) route router.old) }
{
    match router.insert(text, route) {
        Ok(()) => Ok(()),
        Err(error) => {
            let memory = matches!(error, InsertError::OutOfMemory);
            prove!(memory);
            Err(AllocError)
        }
    }
}

fn router_of(alloc: Global) -> Result<Router<Route>, AllocError>
    ensures { IfOk result (λ router. router ≡ routes) }
{
    let mut router = Router::new(alloc);
    add_route(&mut router, "/vehicles", Route::Vehicles)?;
    add_route(&mut router, "/events", Route::Events)?;
    add_route(&mut router, "/vehicles/{provider}/{device}", Route::One(()))?;
    add_route(
        &mut router,
        "/vehicles/{provider}/{device}/events",
        Route::History(()),
    )?;
    add_route(&mut router, "/table", Route::Rows)?;
    Ok(router)
}
