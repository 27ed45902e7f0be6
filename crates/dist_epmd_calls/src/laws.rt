//! Laws of the calls, over the definitions alone.

ghost use Rattle.std.specs.Prelude.{◌≡◌, ℕ, Ok, Result};
ghost use Rattle.dist_epmd.specs.{Registrations.Registrations, Registrations.IsLegal, History.IsIn, declared.row.Row.Row};
ghost use Rattle.dist_stream.specs.Stream.{StreamState};
ghost use Rattle.dist_epmd_calls.specs.{Mapping.Allows, Mapping.Leaves, Serving.Serves};
ghost use Rattle.dist_epmd_calls.specs.declared.{lookup_error.LookupError.LookupError, serve.Served.Served, serve.Served.TheVariants.Registered};

/// However the serving of a request ends, the registrations that were lent keep their invariant, and none is new except one
/// that was answered whole with result 0.
pub fn registrations_that_are_lent()
    ensures legal { (conn limit : ℕ) (old new : StreamState) (before after : Registrations) (result : Result Served LookupError)
        → Serves Allows Leaves conn limit old new before after result → IsLegal before → IsLegal after }
    ensures answered { (conn limit : ℕ) (old new : StreamState) (before after : Registrations) (result : Result Served LookupError)
        → Serves Allows Leaves conn limit old new before after result → ¬ (result ≡ Ok Registered) → (row : Row) → IsIn row after.rows → IsIn row before.rows }
{}
