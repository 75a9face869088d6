//! What holds of the definitions alone: of verdicts, runs and reports, and of sessions, whoever computes them. Each law is a
//! function that does nothing; its contract is the law.
ghost use Rattle.mds_trace.specs.ReplayLaws.{ReplaysAreRuns, ReplaysHaveRequests, ReportsAreOne};
ghost use Rattle.mds_trace.specs.MidwayLaws.{MidwaySessionsShowReports};
ghost use Rattle.mds_trace.specs.SessionLaws.{LawfulReportsOpen, AcceptedEventsOpen, SessionsShowReports};

/// The verdicts of a replay with [`Opening::Removed`](crate::Opening::Removed) are the outcomes of the machine's run over
/// any requests that report the same events in the same order, each behind a registration of its vehicle, whatever else
/// is asked between. Of each registered vehicle that run keeps the registration and the events that the replay accepts.
#[tactic(auto, using(crate::proofs::Runs::replayed_run))]
pub fn replays_are_runs()
    ensures { ReplaysAreRuns }
{}

/// For any items there are requests of which [`replays_are_runs`] speaks: a registration of each vehicle that the items
/// mention, and then a report of each event, report the same events, each behind a registration of its vehicle.
pub fn replays_have_requests()
    ensures { ReplaysHaveRequests }
{}

/// Two reports of a replay of the same items, over the same tables and with the same opening, have the same verdicts, ends
/// and counts.
#[tactic(auto, using(crate::proofs::OneReport::one_report))]
pub fn reports_are_one()
    ensures { ReportsAreOne }
{}

/// In a lawful history, a session over the events of a registered vehicle may be opened from removed, and it shows the
/// states that the vehicle held: before each event, and after the last, the one held after as many reports.
pub fn lawful_reports_open()
    ensures { LawfulReportsOpen }
{}

/// In a replay with [`Opening::Removed`](crate::Opening::Removed), a session over the accepted events of any vehicle may be
/// opened from removed: only want of memory keeps it from being opened.
pub fn accepted_events_open()
    ensures { AcceptedEventsOpen }
{}

/// The debugger shows the states that the replayer told. Of a report of a replay with
/// [`Opening::Removed`](crate::Opening::Removed), a session over a vehicle's accepted events, opened from removed, holds behind
/// each of them the state of its verdict, and at its end that of the vehicle's line.
pub fn sessions_show_reports()
    ensures { SessionsShowReports }
{}

/// The debugger would show the states that a replay with [`Opening::Any`](crate::Opening::Any) told. Of a report of such a replay,
/// a session over a vehicle's accepted events opens from each state in which the report says that the vehicle may have opened,
/// and from no other. It holds behind each event the state of its verdict, and at its end that of the vehicle's line.
pub fn midway_sessions_show_reports()
    ensures { MidwaySessionsShowReports }
{}
