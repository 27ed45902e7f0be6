//! The figures of the port mapper, as text for Prometheus (its text format, version 0.0.4).

use dist_epmd_server::Server;
use std::alloc::{AllocError, Global};

// A figure: its name, its kind, what it counts, and its value. A gauge is what is now; a counter is what happened since the start, and
// only rises.
type Figure = (&'static str, &'static str, &'static str, u64);

// The text of these figures.
fn text_of(alloc: Global, figures: &[Figure]) -> Result<String, AllocError> {
    let mut text = String::new(alloc);
    for (name, kind, help, value) in figures {
        let lines = format!(in alloc;
            "# HELP {name} {help}\n# TYPE {name} {kind}\n{name} {value}\n"
        )?;
        text.push_str(&lines)?;
    }
    Ok(text)
}

/// The text of all figures.
pub fn figures_text(alloc: Global, server: &Server) -> Result<String, AllocError> {
    let (now, ever) = ("gauge", "counter");
    let counts = server.clients().counts();
    text_of(
        alloc,
        &[
            (
                "distmapd_registrations",
                now,
                "Nodes that are registered.",
                counts.registered.saturating_sub(counts.ended),
            ),
            (
                "distmapd_clients",
                now,
                "Clients that are connected.",
                server.clients().len() as u64,
            ),
            (
                "distmapd_answers_owed",
                now,
                "Answers owed to clients that have left.",
                server.owing() as u64,
            ),
            (
                "distmapd_registrations_total",
                ever,
                "Registrations.",
                counts.registered,
            ),
            (
                "distmapd_registrations_ended_total",
                ever,
                "Registrations that ended with their connection.",
                counts.ended,
            ),
            (
                "distmapd_registrations_refused_total",
                ever,
                "Registrations that were refused.",
                counts.refused,
            ),
            (
                "distmapd_lookups_total",
                ever,
                "Questions for one node.",
                counts.looked_up,
            ),
            (
                "distmapd_listings_total",
                ever,
                "Questions for all names.",
                counts.listed,
            ),
            (
                "distmapd_unanswered_total",
                ever,
                "Clients that asked for nothing that is served.",
                counts.unanswered,
            ),
            (
                "distmapd_clients_made_room_total",
                ever,
                "Clients closed for a newer one.",
                counts.made_room,
            ),
            (
                "distmapd_clients_late_total",
                ever,
                "Clients closed since they had not asked in time.",
                counts.late,
            ),
            (
                "distmapd_clients_no_memory_total",
                ever,
                "Clients closed since memory ran out.",
                counts.no_memory,
            ),
            (
                "distmapd_events_missed_total",
                ever,
                "Events for which no line of the log could be kept.",
                counts.missed,
            ),
        ],
    )
}
