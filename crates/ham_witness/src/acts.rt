//! The acts of cases.

ghost use Rattle.std.specs.Prelude.{◌≡◌, ◌^◌, ◌<◌, ◌≤◌, length};
ghost use Rattle.ham_witness.specs.Cases as cases;

use crate::ids::{Ids, first_method, second_method};
use ham_rules::Claim;
use ham_syntax::limits::MAX_PARAMS;
use ham_syntax::{Act, Args, Kind, Object, Param};

/// The id of a number by a mask: d where that bit of the mask is set, else c.
pub(crate) fn id_by(ids: Ids, mask: u32, number: u32) -> u64
    requires { number < 32 }
    ensures { result ≡ cases.id_by ids mask number }
{
    if (mask >> number) % 2 == 1 {
        ids.d
    } else {
        ids.c
    }
}

fn arg_of(kind: Kind, id: u64) -> u64
    ensures { result ≡ cases.arg_of kind id }
{
    match kind {
        Kind::Id => id,
        Kind::Amount => 1,
    }
}

fn one_if_id(kind: Kind) -> u32
    ensures is { result ≡ cases.one_if_id kind }
    ensures small { result ≤ 1 }
{
    match kind {
        Kind::Id => 1,
        Kind::Amount => 0,
    }
}

fn plain_args(ids: Ids, params: &[Param]) -> Args
    requires { length params.now ≤ MAX_PARAMS }
    ensures { result ≡ cases.plain_args ids params.now }
{
    let mut args = [0u64; MAX_PARAMS];
    for (i, param) in params.iter().enumerate() {
        args[i] = arg_of(param.kind, ids.c);
    }
    Args::new(&args[..params.len()]).unwrap()
}

fn args_by(ids: Ids, mask: u32, params: &[Param]) -> Args
    requires { length params.now ≤ MAX_PARAMS }
    ensures { result ≡ cases.args_from ids mask 0 params.now }
{
    let mut args = [0u64; MAX_PARAMS];
    let mut number = 0;
    for (i, param) in params.iter().enumerate() {
        args[i] = arg_of(param.kind, id_by(ids, mask, number));
        number += one_if_id(param.kind);
    }
    Args::new(&args[..params.len()]).unwrap()
}

fn count_ids(params: &[Param]) -> u32
    requires { length params.now ≤ MAX_PARAMS }
    ensures count { result ≡ cases.count_ids params.now }
    ensures few { result ≤ MAX_PARAMS }
{
    let mut count = 0;
    for param in params {
        count += one_if_id(param.kind);
    }
    count
}

fn params_at(object: &Object, m: u8) -> &[Param]
    ensures params { result.now ≡ cases.params_at object.now m }
    ensures few { length result.now ≤ MAX_PARAMS }
{
    match object.methods().get(usize::from(m)) {
        None => &[],
        Some(method) => method.params.items(),
    }
}

/// The first act of every case: every id is c, and every amount 1.
pub fn first_act(object: &Object, ids: Ids, claim: &Claim) -> Act
    ensures { result ≡ cases.first_act object.now ids claim.now }
{
    let method = first_method(claim);
    Act {
        method,
        args: plain_args(ids, params_at(object, method)),
    }
}

/// The second act of a case, where the claim has a second method: the ids are by the mask, and every amount is 1.
pub fn second_act(object: &Object, ids: Ids, mask: u32, claim: &Claim) -> Option<Act>
    ensures { result ≡ cases.second_act object.now ids mask (cases.second_method claim.now) }
{
    match second_method(claim) {
        None => None,
        Some(method) => Some(Act {
            method,
            args: args_by(ids, mask, params_at(object, method)),
        }),
    }
}

/// How many masks there are.
pub fn mask_count(object: &Object, claim: &Claim) -> u32
    ensures { result ≡ cases.mask_count object.now (cases.second_method claim.now) }
{
    match second_method(claim) {
        None => 1,
        Some(method) => 1 << count_ids(params_at(object, method)),
    }
}
