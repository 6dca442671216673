//! Who could come to touch whom in one step.

ghost use Rattle.std.specs.Prelude.{◌≡◌, ◌↔◌, ◌<◌, ◌≤◌, ◌+◌, ◌^◌, All, IfOk, IsTrue, OnOk, length};
ghost use Rattle.std.specs.List.Sorted.{IsNonDecreasingBy};
ghost use Rattle.crowd_moves.specs.Contacts.{AreContacts, AreEntries, IsWideEnough};
ghost use Rattle.crowd_moves.specs.Finding.{AddsAll, AddsOfCells, AddsOfEntries, AddsOne, IsNearOther};
ghost use Rattle.crowd_moves.specs.Pairs.{HasSizes};
ghost use Rattle.crowd_moves.specs.declared.keyed.KeyedPlace.{KeyedPlace};

use crate::agents::CrowdAgent;
use crate::grid::{ROW, before, cell, entries, widest};
use crate::keyed::KeyedPlace;
use crate::pairs::is_near;
use std::alloc::{AllocError, Global};

/// For each agent the others that it could come to touch in one step, one list after the other.
#[derive(Drop)]
pub struct Contacts {
    /// Where the list of each agent begins, and how many there are in all.
    pub first: Vec<usize>,
    /// The places of agents.
    pub others: Vec<u32>,
}

/// The contacts of all agents: for each those that it could come to touch in one step, and no others.
pub fn find_contacts(alloc: Global, agents: &[CrowdAgent]) -> Result<Contacts, AllocError>
    requires sizes { All HasSizes agents.now }
    requires few { length agents.now < 2 ^ 32 }
    ensures { IfOk result (λ contacts. AreContacts agents.now contacts.first.items contacts.others.items) }
{
    let side = 2 * widest(agents) + 1;
    let grid = entries(alloc, agents, side)?;
    let mut first = Vec::with_capacity(alloc, agents.len())?;
    let mut others = Vec::new(alloc);
    first.push(0)?;
    for i in 0..agents.len() {
        push_near(agents, grid.as_slice(), side, i, &mut others)?;
        first.push(others.len())?;
    }
    Ok(Contacts { first, others })
}

/// Adds those that an agent could come to touch.
fn push_near(
    agents: &[CrowdAgent],
    entries: &[KeyedPlace],
    side: u32,
    i: usize,
    others: &mut Vec<u32>,
) -> Result<(), AllocError>
    requires sizes { All HasSizes agents.now }
    requires there { i < length agents.now }
    requires entries { AreEntries side agents.now entries.now }
    requires side { IsWideEnough side agents.now }
    ensures { OnOk result (AddsAll agents.now i others.old.items others.new.items) }
{
    let own = cell(side, agents[i].at);
    push_cells(agents, entries, own - ROW - 1, i, others)?;
    push_cells(agents, entries, own - 1, i, others)?;
    push_cells(agents, entries, own + ROW - 1, i, others)
}

/// Of three cells that follow each other, adds those that an agent could come to touch.
fn push_cells(
    agents: &[CrowdAgent],
    entries: &[KeyedPlace],
    low: u64,
    i: usize,
    others: &mut Vec<u32>,
) -> Result<(), AllocError>
    requires sizes { All HasSizes agents.now }
    requires there { i < length agents.now }
    requires order { IsNonDecreasingBy (λ (entry : KeyedPlace). entry.key) entries.now }
    requires low { low ≤ 2 ^ 47 }
    ensures { OnOk result (AddsOfCells agents.now entries.now i low others.old.items others.new.items) }
{
    let begin = before(entries, low);
    let end = before(entries, low + 3);
    push_entries(agents, &entries[..end], begin, i, others)
}

/// Of entries from one on, adds those that an agent could come to touch.
fn push_entries(
    agents: &[CrowdAgent],
    entries: &[KeyedPlace],
    begin: usize,
    i: usize,
    others: &mut Vec<u32>,
) -> Result<(), AllocError>
    requires sizes { All HasSizes agents.now }
    requires there { i < length agents.now }
    ensures { OnOk result (AddsOfEntries agents.now entries.now i begin (length entries.now) others.old.items others.new.items) }
{
    for k in begin..entries.len() {
        push_if_near(agents, i, entries[k].place, others)?;
    }
    Ok(())
}

/// Adds an agent that another could come to touch.
fn push_if_near(
    agents: &[CrowdAgent],
    i: usize,
    j: u32,
    others: &mut Vec<u32>,
) -> Result<(), AllocError>
    requires sizes { All HasSizes agents.now }
    requires there { i < length agents.now }
    ensures { OnOk result (AddsOne agents.now i j others.old.items others.new.items) }
{
    if is_near_other(agents, i, j as usize) {
        others.push(j)?;
    }
    Ok(())
}

/// Whether an agent is another than one, and could come to touch it in one step.
fn is_near_other(agents: &[CrowdAgent], i: usize, j: usize) -> bool
    requires sizes { All HasSizes agents.now }
    requires there { i < length agents.now }
    ensures { IsTrue result ↔ IsNearOther agents.now i j }
{
    if j == i || j >= agents.len() {
        return false;
    }
    is_near(&agents[i], &agents[j])
}
