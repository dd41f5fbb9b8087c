//! The words of `node OBJECT ME BASE1 .. BASEN`.

ghost use Rattle.std.specs.Prelude.{◌≡◌, ◌≤◌, length, vec_len, map, nat_le, ◌&&◌, MatchOption, None, Some, IfSome, IfOk};
ghost use Rattle.ham_node_cli.specs.NodeReading as reading;
ghost use Rattle.ham_node_cli.specs.NodeWords.{AsksNode, AsksNoNode, IsOneOf};

use ham_cli::are_text;
use ham_syntax::limits::MAX_REPLICAS;
use ham_syntax::{NoMemory, Word};
use ham_text::number;
use ham_workers::{Base, MAX_BASE, MIN_BASE};
use std::alloc::Global;

/// A node: the name of its object's file, which replica it is, from 1, and the words of the replicas' bases.
#[derive(Clone, Copy, Debug)]
pub struct NodeCommand<'a> {
    pub object: &'a [u8],
    pub me: u8,
    pub bases: &'a [Word],
}

/// What the words ask of a node; none where they are no node's. It takes no memory.
pub fn node_of(words: &[Word]) -> Option<NodeCommand<'_>>
    ensures asks { MatchOption result (AsksNoNode words.now) (λ node. AsksNode words.now (reading.seen node)) }
    ensures one { IfSome result (λ node. IsOneOf node.me (length node.bases.now)) }
{
    if are_text(words) { read(words) } else { None }
}

fn read(words: &[Word]) -> Option<NodeCommand<'_>>
    ensures read { MatchOption result (reading.read words.now ≡ None) (λ node. reading.read words.now ≡ Some (reading.seen node)) }
    ensures one { IfSome result (λ node. IsOneOf node.me (length node.bases.now)) }
{
    match words {
        [verb, object, me, bases @ ..] => {
            read_verb(verb.items(), object.items(), me.items(), bases)
        }
        _ => None,
    }
}

#[tactic(auto, unfolding(crate::specs::NodeReading::read_verb))]
fn read_verb<'a>(
    verb: &[u8],
    object: &'a [u8],
    me: &[u8],
    bases: &'a [Word],
) -> Option<NodeCommand<'a>>
    ensures read { MatchOption result (reading.read_verb verb.now object.now me.now bases.now ≡ None) (λ node. reading.read_verb verb.now object.now me.now bases.now ≡ Some (reading.seen node)) }
    ensures one { IfSome result (λ node. IsOneOf node.me (length node.bases.now)) }
{
    if verb == b"node".as_slice() {
        read_rest(object, me, bases)
    } else {
        None
    }
}

#[tactic(auto, unfolding(crate::specs::NodeReading::read_rest))]
fn read_rest<'a>(object: &'a [u8], me: &[u8], bases: &'a [Word]) -> Option<NodeCommand<'a>>
    ensures read { MatchOption result (reading.read_rest object.now me.now bases.now ≡ None) (λ node. reading.read_rest object.now me.now bases.now ≡ Some (reading.seen node)) }
    ensures one { IfSome result (λ node. IsOneOf node.me (length node.bases.now)) }
{
    if bases.len() <= MAX_REPLICAS && are_bases(bases) {
        match me_of(me, bases.len()) {
            Some(me) => Some(NodeCommand { object, me, bases }),
            None => None,
        }
    } else {
        None
    }
}

/// One of so many replicas.
#[tactic(auto, unfolding(crate::specs::NodeReading::me_of))]
fn me_of(word: &[u8], replicas: usize) -> Option<u8>
    requires { replicas ≤ MAX_REPLICAS }
    ensures is { result ≡ reading.me_of word.now replicas }
    ensures within { IfSome result (λ me. (1 ≤ me) × (me ≤ replicas)) }
{
    let n = number(word)?;
    if 1 <= n && n <= replicas as u64 {
        Some(n as u8)
    } else {
        None
    }
}

/// A base, from `MIN_BASE` to `MAX_BASE`.
#[tactic(auto, unfolding(crate::specs::NodeReading::base_of))]
fn base_of(word: &[u8]) -> Option<u16>
    ensures base { result ≡ reading.base_of word.now }
    ensures within { IfSome result (λ n. (MIN_BASE ≤ n) × (n ≤ MAX_BASE)) }
{
    let n = number(word)?;
    if u64::from(MIN_BASE) <= n && n <= u64::from(MAX_BASE) {
        Some(n as u16)
    } else {
        None
    }
}

fn are_bases(words: &[Word]) -> bool
    ensures { result ≡ reading.are_bases words.now }
{
    words.iter().all(|word| is_base(word.items()))
}

fn is_base(word: &[u8]) -> bool
    ensures { result ≡ reading.is_base word.now }
{
    match base_of(word) {
        Some(_) => true,
        None => false,
    }
}

/// The base of a word that is one.
fn base_in(word: &[u8]) -> Base
    ensures { result.port ≡ reading.base_in word.now }
{
    match base_of(word) {
        Some(port) => Base::new(port),
        None => Base::new(MIN_BASE),
    }
}

/// The bases of words that are such.
pub fn bases_of(alloc: Global, words: &[Word]) -> Result<Vec<Base>, NoMemory>
    ensures bases { IfOk result (λ bases. map (λ b. b.port) bases.items ≡ map reading.base_in words.now) }
    ensures each { IfOk result (λ bases. vec_len bases ≡ length words.now) }
{
    let mut bases = Vec::new(alloc);
    for word in words {
        bases.push(base_in(word.items()))?;
    }
    Ok(bases)
}
