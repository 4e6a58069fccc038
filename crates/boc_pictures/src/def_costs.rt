// What the rows of each def take.

use crate::html::put_percent;
use crate::page::Page;
use crate::subject::Subject;
use crate::written::Written;
use boc_page::Defs;
use std::alloc::{AllocError, Global};

/// What the rows of a def take. All but rows are ticks.
#[derive(Clone, Copy, Default)]
pub(crate) struct DefCosts {
    pub(crate) rows: u64,
    pub(crate) ticks: u64,
    pub(crate) chain: u64,
    pub(crate) waited: u64,
}

/// Returns what the rows of each def take.
pub(crate) fn costs_of(
    alloc: Global,
    subject: &Subject,
    defs: &Defs,
) -> Result<Vec<DefCosts>, AllocError> {
    let mut costs = vec![in alloc; DefCosts::default(); defs.names.len()]?;
    for (row, def) in subject.shown.iter().zip(&defs.of_rows) {
        if let Some(own) = costs.get_mut(*def as usize) {
            own.rows = own.rows.saturating_add(1);
            own.ticks = own.ticks.saturating_add(row.end.saturating_sub(row.start));
            own.chain = own.chain.saturating_add(u64::from(row.through));
            own.waited = own
                .waited
                .saturating_add(row.start.saturating_sub(row.spawned));
        }
    }
    Ok(costs)
}

/// Appends the number of a def's rows, and its part of work and chain, to a text.
pub(crate) fn put_costs(text: &mut Written, page: &Page<'_>, costs: DefCosts) {
    text.put_number(costs.rows);
    text.put(if costs.rows == 1 { " row, " } else { " rows, " });
    put_percent(text, costs.ticks, page.subject.work);
    text.put(" of work, ");
    put_percent(text, costs.chain, page.subject.span);
    text.put(" of chain");
}
