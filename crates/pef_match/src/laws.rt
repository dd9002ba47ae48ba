//! What the definition promises of the alerts of a job. This function does nothing when it runs.
ghost use Rattle.std.specs.Prelude.{ℕ, List};
ghost use Rattle.std.specs.List.{AllByRecursion};
ghost use Rattle.lan_dest.specs.declared.destination.Ports.{Ports};
ghost use Rattle.lan_dest.specs.Parameters.{Tables as LanTables};
ghost use Rattle.pef_config.specs.Places.{Sizes, Tables};
ghost use Rattle.pef_match.specs.Job.{job};
ghost use Rattle.pef_match.specs.Promises.{IsNamed};

/// An alert goes only to a destination that an enabled entry of its record's policies names.
pub fn targets_law()
    ensures { (sizes : Sizes) (tables : Tables) (lan : LanTables) (ports : Ports) (event : List ℕ)
        → AllByRecursion (λ target. IsNamed sizes tables lan ports event target) (job sizes tables lan ports event).targets }
{}
