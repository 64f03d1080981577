//! The base padding by which a watch tells a scan.
ghost use Rattle.std.specs.Prelude.{◌≡◌};
ghost use Rattle.scan_paths.specs.Scans.{lengths_of};
ghost use Rattle.quiet_watch.specs.Watches.{marks};

use scan_paths::BasePads;

/// One bit before all else in each scan.
pub(crate) fn marks() -> BasePads
    ensures { lengths_of result ≡ marks }
{
    BasePads {
        pre_ir: 1,
        post_ir: 0,
        pre_dr: 1,
        post_dr: 0,
    }
}
