//! The tables of a plan.

ghost use Rattle.std.specs.Prelude.{◌≡◌, ◌<◌, ◌∷◌, ◌++◌, length, map, IfOk, OnOk};
ghost use Rattle.std.specs.List.{flat_map, range_with_len};
ghost use Rattle.ham_text.specs.Written.{line_text};
ghost use Rattle.ham_plan.specs.Plans as plans;
ghost use Rattle.ham_tables.specs.TablesText as tables_text;

use crate::lines::{
    push_count, push_group_lane, push_name, push_numbers_of, push_own_lane, push_pair,
};
use ham_lists::{Bytes, Items, NoMemory};
use ham_plan::Plan;
use ham_syntax::Object;
use ham_text::push_line_end;
use std::alloc::Global;

/// A plan, and the object whose methods it is of.
#[derive(Clone, Copy)]
struct NamedPlan<'a> {
    object: &'a Object,
    plan: &'a Plan,
    ghost methods: { plan.now.methods ≡ length object.now.methods },
}

/// The line of a conflict, where there is one and m is not after n.
fn push_conflict(text: &mut Bytes, named: &NamedPlan, m: u8, n: u8) -> Result<(), NoMemory>
    requires m_exists { m < named.now.plan.now.methods }
    requires n_exists { n < named.now.plan.now.methods }
    ensures { OnOk result (text.new ≡ text.old ++ flat_map line_text (tables_text.conflict_pair named.now.object.now named.now.plan.now m n)) }
{
    if m <= n && named.plan.conflicts(m, n) {
        push_pair(text, b"conflict", named.object, m, n)?;
    }
    Ok(())
}

/// Row m of the conflicts: the methods not before m with which it conflicts.
fn push_conflicts_of(text: &mut Bytes, named: &NamedPlan, m: u8) -> Result<(), NoMemory>
    requires exists { m < named.now.plan.now.methods }
    ensures { OnOk result (text.new ≡ text.old ++ flat_map line_text (tables_text.conflict_row named.now.object.now named.now.plan.now m)) }
{
    for n in 0..named.plan.methods() {
        push_conflict(text, named, m, n)?;
    }
    Ok(())
}

fn push_conflicts(text: &mut Bytes, named: &NamedPlan) -> Result<(), NoMemory>
    ensures { OnOk result (text.new ≡ text.old ++ flat_map line_text (tables_text.conflict_lines named.now.object.now named.now.plan.now)) }
{
    for m in 0..named.plan.methods() {
        push_conflicts_of(text, named, m)?;
    }
    Ok(())
}

/// The line of a dependency, where there is one.
fn push_depend(text: &mut Bytes, named: &NamedPlan, m: u8, n: u8) -> Result<(), NoMemory>
    requires m_exists { m < named.now.plan.now.methods }
    requires n_exists { n < named.now.plan.now.methods }
    ensures { OnOk result (text.new ≡ text.old ++ flat_map line_text (tables_text.depend_pair named.now.object.now named.now.plan.now m n)) }
{
    if named.plan.depends(m, n) {
        push_pair(text, b"depend", named.object, m, n)?;
    }
    Ok(())
}

/// Row m of the dependencies: the methods on which it depends.
fn push_depends_of(text: &mut Bytes, named: &NamedPlan, m: u8) -> Result<(), NoMemory>
    requires exists { m < named.now.plan.now.methods }
    ensures { OnOk result (text.new ≡ text.old ++ flat_map line_text (tables_text.depend_row named.now.object.now named.now.plan.now m)) }
{
    for n in 0..named.plan.methods() {
        push_depend(text, named, m, n)?;
    }
    Ok(())
}

fn push_dependencies(text: &mut Bytes, named: &NamedPlan) -> Result<(), NoMemory>
    ensures { OnOk result (text.new ≡ text.old ++ flat_map line_text (tables_text.depend_lines named.now.object.now named.now.plan.now)) }
{
    for m in 0..named.plan.methods() {
        push_depends_of(text, named, m)?;
    }
    Ok(())
}

/// The name of method m after a space, where it is in the group.
fn push_name_if_in(text: &mut Bytes, named: &NamedPlan, group: u8, m: u8) -> Result<(), NoMemory>
    requires exists { m < named.now.plan.now.methods }
    ensures { OnOk result (text.new ≡ text.old ++ flat_map (λ name. 32 ∷ name) (tables_text.name_if_in named.now.object.now named.now.plan.now group m)) }
{
    match named.plan.group_of(m) {
        Some(of) => {
            if of == group {
                push_name(text, named.object, m)?;
            }
            Ok(())
        }
        None => Ok(()),
    }
}

/// The names of a group's methods, each after a space.
fn push_names_in(text: &mut Bytes, named: &NamedPlan, group: u8) -> Result<(), NoMemory>
    ensures { OnOk result (text.new ≡ text.old ++ flat_map (λ name. 32 ∷ name) (tables_text.names_in named.now.object.now named.now.plan.now group)) }
{
    for m in 0..named.plan.methods() {
        push_name_if_in(text, named, group, m)?;
    }
    Ok(())
}

/// The line of a group.
fn push_group(text: &mut Bytes, named: &NamedPlan, group: u8) -> Result<(), NoMemory>
    ensures { OnOk result (text.new ≡ text.old ++ line_text (tables_text.group_line named.now.object.now named.now.plan.now group)) }
{
    push_numbers_of(
        text,
        b"group",
        group,
        b"leader",
        named.plan.leader_of(group),
    )?;
    push_names_in(text, named, group)?;
    push_line_end(text)?;
    Ok(())
}

fn push_groups(text: &mut Bytes, named: &NamedPlan) -> Result<(), NoMemory>
    ensures { OnOk result (text.new ≡ text.old ++ flat_map line_text (tables_text.group_lines named.now.object.now named.now.plan.now)) }
{
    for group in 0..named.plan.groups() {
        push_group(text, named, group)?;
    }
    Ok(())
}

fn push_group_lanes(text: &mut Bytes, plan: &Plan) -> Result<(), NoMemory>
    ensures { OnOk result (text.new ≡ text.old ++ flat_map line_text (tables_text.group_lanes plan.now)) }
{
    for group in 0..plan.groups() {
        push_group_lane(text, group)?;
    }
    Ok(())
}

/// The lanes of a free method: one for each replica.
fn push_each_lane(text: &mut Bytes, named: &NamedPlan, m: u8) -> Result<(), NoMemory>
    requires exists { m < named.now.plan.now.methods }
    ensures { OnOk result (text.new ≡ text.old ++ flat_map line_text (map (tables_text.own_lane named.now.object.now named.now.plan.now m) (range_with_len 1 named.now.plan.now.replicas))) }
{
    for before in 0..named.plan.replicas() {
        let replica = before + 1;
        push_own_lane(
            text,
            named.object,
            named.plan.lane_of(m, replica),
            m,
            replica,
        )?;
    }
    Ok(())
}

/// The lanes of method m, where it is free.
fn push_own_lanes(text: &mut Bytes, named: &NamedPlan, m: u8) -> Result<(), NoMemory>
    requires exists { m < named.now.plan.now.methods }
    ensures { OnOk result (text.new ≡ text.old ++ flat_map line_text (tables_text.own_lanes named.now.object.now named.now.plan.now m)) }
{
    if named.plan.is_free(m) {
        push_each_lane(text, named, m)
    } else {
        Ok(())
    }
}

fn push_free_lanes(text: &mut Bytes, named: &NamedPlan) -> Result<(), NoMemory>
    ensures { OnOk result (text.new ≡ text.old ++ flat_map line_text (tables_text.free_lanes named.now.object.now named.now.plan.now)) }
{
    for m in 0..named.plan.methods() {
        push_own_lanes(text, named, m)?;
    }
    Ok(())
}

/// The tables of the plan: its conflicts, dependencies, groups and lanes, with the names of the object's methods.
pub fn print_tables(alloc: Global, object: &Object, plan: &Plan) -> Result<Bytes, NoMemory>
    requires { plan.now.methods ≡ length object.now.methods }
    ensures { IfOk result (λ text. text ≡ tables_text.tables_text object.now plan.now) }
{
    let named = NamedPlan { object, plan };
    let mut text = Items::new(alloc);
    push_count(&mut text, b"methods", plan.methods())?;
    push_count(&mut text, b"replicas", plan.replicas())?;
    push_conflicts(&mut text, &named)?;
    push_dependencies(&mut text, &named)?;
    push_groups(&mut text, &named)?;
    push_group_lanes(&mut text, plan)?;
    push_free_lanes(&mut text, &named)?;
    text.extend(b"end\n")?;
    Ok(text)
}
