//! When a group starts: behind all that its ballot names.

ghost use Rattle.std.specs.Prelude.{◌≡◌, ◌<◌, ◌^◌};
ghost use Rattle.tw_types.specs.Groups.{start_of, lease_ends, greatest, readings};

use tw_types::{Ballot, Report, Team};

/// When a group starts that is made of this ballot, in microseconds of team time. It is wider than a time, so that no sum is
/// too great for it.
pub(crate) fn start_of(team: &Team, b: &Ballot) -> u128
    ensures exact { result ≡ start_of team.now b.now }
    ensures range { result < 2 ^ 67 }
{
    let before = b.best.as_ref().map_or(0, |best| best.start);
    let behind = lease_end(team, &b.reports).max(latest_reading(&b.reports));
    1 + u128::from(before).max(behind)
}

/// When the last of the leases ends that the reports name, 0 where they name none.
fn lease_end(team: &Team, reports: &[Report]) -> u128
    ensures exact { result ≡ greatest (lease_ends team.now reports.now) }
    ensures range { result < 2 ^ 66 }
{
    let mut end = 0;
    for report in reports {
        if let Some(at) = report.support {
            end = end.max(u128::from(at) + u128::from(team.lease));
        }
    }
    end
}

/// The latest reading that was reported, 0 where there is no report.
fn latest_reading(reports: &[Report]) -> u128
    ensures exact { result ≡ greatest (readings reports.now) }
    ensures range { result < 2 ^ 66 }
{
    let mut latest = 0;
    for report in reports {
        latest = latest.max(u128::from(report.reading));
    }
    latest
}
