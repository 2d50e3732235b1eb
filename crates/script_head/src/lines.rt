//! The items of `lines`. One that is no plan of a line makes the member a bad one, and so does a second of one line.

ghost use Rattle.std.specs.Prelude.{All, Some};
ghost use Rattle.std.specs.Bool.{OnTrue, OnFalse};
ghost use Rattle.serde_json.specs.View.{view, items_view};
ghost use Rattle.script_head.specs.LinePlans.{RisesAbove, AreApart, NoPairTwice};
ghost use Rattle.script_head.specs.Refusals.{Reads};
ghost use Rattle.script_head.specs.Members.{HasNumberBelow, IsCarryItem, HasFail, IsLinePlan, HasLines};
ghost use Rattle.script_head.specs.Values.{AreItems, HasItems};

use crate::error::HeadError;
use crate::limits::{LARGEST_CARRY, MOST_FAILURES};
use crate::line_plan::LinePlan;
use crate::member::Member;
use serde_json::Value;
use std::alloc::Global;
use volume_model::Sequence;

const BAD: HeadError = HeadError::BadMember(Member::Lines);

/// The plans of lines, where there are so many streams and replicas.
pub(crate) fn lines_in(
    alloc: Global,
    line: &Value,
    streams: u8,
    replicas: u8,
) -> Result<Sequence<LinePlan>, HeadError>
    ensures { Reads Member.Lines (HasLines (view line.now) streams replicas) result }
{
    match line.get("lines") {
        None => Ok(Sequence::of(Vec::new(alloc))),
        Some(value) => plans_in(alloc, value, streams, replicas),
    }
}

fn plans_in(
    alloc: Global,
    value: &Value,
    streams: u8,
    replicas: u8,
) -> Result<Sequence<LinePlan>, HeadError>
    ensures { Reads Member.Lines
        (λ plans. HasItems (IsLinePlan streams replicas) (Some (view value.now)) plans
        × NoPairTwice plans) result }
{
    let items = value.as_array().ok_or(BAD)?;
    plans_from(alloc, items, streams, replicas)
}

fn plans_from(
    alloc: Global,
    items: &[Value],
    streams: u8,
    replicas: u8,
) -> Result<Sequence<LinePlan>, HeadError>
    ensures { Reads Member.Lines
        (λ plans. AreItems (IsLinePlan streams replicas) (items_view items.now) plans
        × NoPairTwice plans) result }
{
    let mut plans = Vec::new(alloc);
    for item in items {
        let plan = plan_in(alloc, item, streams, replicas)?;
        // No more plans than there are lines come this far, so that a long list is not searched long.
        if has_plan(&plans, &plan) {
            return Err(BAD);
        }
        plans.push(plan)?;
    }
    Ok(Sequence::of(plans))
}

/// Whether one of the plans is of this one's line.
fn has_plan(plans: &[LinePlan], plan: &LinePlan) -> bool
    ensures apart { OnFalse result (All (λ p. AreApart p plan.now) plans.now) }
    ensures twice { OnTrue result (All (λ p. AreApart p plan.now) plans.now → ⊥) }
{
    plans.iter().any(|other| other.worker == plan.worker && other.replica == plan.replica)
}

fn plan_in(alloc: Global, item: &Value, streams: u8, replicas: u8) -> Result<LinePlan, HeadError>
    ensures { Reads Member.Lines (IsLinePlan streams replicas (view item.now)) result }
{
    let worker = number_in(item, "worker", streams)?;
    let replica = number_in(item, "replica", replicas)?;
    let value = item.get("fail").ok_or(BAD)?;
    let fail = fail_in(alloc, value)?;
    Ok(LinePlan {
        worker,
        replica,
        fail,
    })
}

/// The number under a name, below how many there are.
fn number_in(item: &Value, name: &str, count: u8) -> Result<u8, HeadError>
    ensures { Reads Member.Lines (HasNumberBelow count name.now (view item.now)) result }
{
    match item.get(name).and_then(Value::as_u64) {
        Some(number) if number < count as u64 => Ok(number as u8),
        _ => Err(BAD),
    }
}

fn fail_in(alloc: Global, fail: &Value) -> Result<Sequence<u32>, HeadError>
    ensures { Reads Member.Lines (HasFail (Some (view fail.now))) result }
{
    let items = fail.as_array().ok_or(BAD)?;
    // Too long a list is refused before memory is taken for it.
    if items.len() > MOST_FAILURES {
        return Err(BAD);
    }
    carries_from(alloc, items)
}

fn carries_from(alloc: Global, items: &[Value]) -> Result<Sequence<u32>, HeadError>
    ensures { Reads Member.Lines
        (λ carries. AreItems IsCarryItem (items_view items.now) carries × RisesAbove 0 carries) result }
{
    let mut carries = Vec::new(alloc);
    let mut last = 0;
    for item in items {
        let carry = carry_in(item)?;
        if carry <= last {
            return Err(BAD);
        }
        carries.push(carry)?;
        last = carry;
    }
    Ok(Sequence::of(carries))
}

/// The number of a carry.
fn carry_in(item: &Value) -> Result<u32, HeadError>
    ensures { Reads Member.Lines (IsCarryItem (view item.now)) result }
{
    match item.as_u64() {
        Some(number) if number <= LARGEST_CARRY => Ok(number as u32),
        _ => Err(BAD),
    }
}
