//! Gives the names of a tree their ports.
ghost use Rattle.std.specs.Prelude.{◌≡◌, ◌<◌, ◌^◌, ◌++◌, length, map, IfOk, OnOk, true};
ghost use Rattle.std.specs.List.{list_all};
ghost use Rattle.scc_thin.specs.Gives.{Gives, each};
ghost use Rattle.scc_thin.specs.Resolved.{group_ports, ports_of, names_of, are_new_names, are_new_numbers, is_free, are_free, are_others, named_of, is_output_at, input_named, output_named, second_of, put_of, is_sensed, are_written, is_complete, agrees, design_of};

use crate::design::{Design, Port, Put, Second};
use crate::halt::Halt;
use crate::thin::index::{NameIndex, NumberSet};
use crate::thin::reserved::is_reserved;
use crate::thin::tree::{Group, Read, Tree, Write};
use scc_base::{List, NoMemory, Text};
use std::alloc::Global;

/// The most ports of a thin text.
const MOST_PORTS: usize = 1000;

fn copy(alloc: Global, text: &[u8]) -> Result<Text, NoMemory>
    ensures { IfOk result (λ t. t ≡ text.now) }
{
    let mut copy = Text::new(alloc);
    copy.push_bytes(text)?;
    Ok(copy)
}

fn group_ports(alloc: Global, g: &Group, list: &mut List<Port>) -> Result<(), NoMemory>
    ensures { OnOk result (list.new ≡ list.old ++ group_ports g.now) }
{
    for name in g.names.as_slice() {
        list.push(Port {
            name: copy(alloc, name.bytes())?,
            output: g.output,
            width: g.width,
        })?;
    }
    Ok(())
}

fn ports(alloc: Global, groups: &[Group]) -> Result<List<Port>, NoMemory>
    ensures { IfOk result (λ l. l ≡ ports_of groups.now) }
{
    let mut list = List::new(alloc);
    for g in groups {
        group_ports(alloc, g, &mut list)?;
    }
    Ok(list)
}

// Adds the ports' names, as long as they are new.
fn add_names(alloc: Global, index: &mut NameIndex, ports: &[Port]) -> Result<bool, NoMemory>
    ensures new { IfOk result (λ b. b ≡ are_new_names index.old (names_of ports.now)) }
    ensures added { IfOk result (λ b. b ≡ true → index.new ≡ index.old ++ names_of ports.now) }
{
    for p in ports {
        if !index.insert(alloc, p.name.bytes())? {
            return Ok(false);
        }
    }
    Ok(true)
}

fn add_numbers(set: &mut NumberSet, numbers: &[u32]) -> Result<bool, NoMemory>
    ensures new { IfOk result (λ b. b ≡ are_new_numbers set.old numbers.now) }
    ensures added { IfOk result (λ b. b ≡ true → set.new ≡ set.old ++ numbers.now) }
{
    for n in numbers {
        if !set.insert(*n)? {
            return Ok(false);
        }
    }
    Ok(true)
}

fn is_free(p: &Port) -> bool
    ensures { result ≡ is_free p.now.name }
{
    !is_reserved(p.name.bytes())
}

fn all_free(top: &[u8], function: &[u8], ports: &[Port]) -> bool
    ensures { result ≡ are_free top.now function.now ports.now }
{
    !is_reserved(top) && !is_reserved(function) && ports_free(ports)
}

fn ports_free(ports: &[Port]) -> bool
    ensures { result ≡ list_all (λ p. is_free p.name) ports.now }
{
    ports.iter().all(|p| is_free(p))
}

fn others_new(index: &NameIndex, top: &[u8], function: &[u8]) -> bool
    ensures { result ≡ are_others index.now top.now function.now }
{
    !index.has(top) && !index.has(function) && top != function
}

// The ports' names, where all names differ and none is reserved.
#[tactic(auto, unfolding(crate::specs::Resolved::named_of))]
fn named(alloc: Global, top: &[u8], function: &[u8], ports: &[Port]) -> Result<NameIndex, Halt>
    ensures value { Gives (λ i. i) result (named_of top.now function.now ports.now) }
    ensures names { IfOk result (λ i. i ≡ names_of ports.now) }
{
    let mut index = NameIndex::new(alloc);
    if !add_names(alloc, &mut index, ports)? {
        return Err(Halt::Other);
    }
    if !others_new(&index, top, function) {
        return Err(Halt::Other);
    }
    if !all_free(top, function, ports) {
        return Err(Halt::Other);
    }
    Ok(index)
}

fn is_output(ports: &[Port], i: usize) -> bool
    ensures { result ≡ is_output_at ports.now i }
{
    match ports.get(i) {
        Some(p) => p.output,
        None => false,
    }
}

#[tactic(auto, using(crate::proofs::Mapped::length_map), unfolding(crate::specs::Resolved::input_named))]
fn input(index: &NameIndex, ports: &[Port], name: &[u8]) -> Result<u32, Halt>
    requires few { length ports.now < 2 ^ 32 }
    requires names { index.now ≡ names_of ports.now }
    ensures { Gives (λ i. i) result (input_named ports.now name.now) }
{
    match index.number(name) {
        Some(i) => {
            if is_output(ports, i) {
                Err(Halt::Other)
            } else {
                Ok(i as u32)
            }
        }
        None => Err(Halt::Other),
    }
}

#[tactic(auto, using(crate::proofs::Mapped::length_map), unfolding(crate::specs::Resolved::output_named))]
fn output(index: &NameIndex, ports: &[Port], name: &[u8]) -> Result<u32, Halt>
    requires few { length ports.now < 2 ^ 32 }
    requires names { index.now ≡ names_of ports.now }
    ensures { Gives (λ i. i) result (output_named ports.now name.now) }
{
    match index.number(name) {
        Some(i) => {
            if is_output(ports, i) {
                Ok(i as u32)
            } else {
                Err(Halt::Other)
            }
        }
        None => Err(Halt::Other),
    }
}

fn second(index: &NameIndex, ports: &[Port], r: &Option<Read>) -> Result<Option<Second>, Halt>
    requires few { length ports.now < 2 ^ 32 }
    requires names { index.now ≡ names_of ports.now }
    ensures { Gives (λ s. s) result (second_of ports.now r.now) }
{
    match r {
        None => Ok(None),
        Some(r) => Ok(Some(Second {
            op: r.op,
            port: input(index, ports, r.port.bytes())?,
        })),
    }
}

#[tactic(auto, unfolding(crate::specs::Resolved::put_of))]
fn put(index: &NameIndex, ports: &[Port], w: &Write) -> Result<Put, Halt>
    requires few { length ports.now < 2 ^ 32 }
    requires names { index.now ≡ names_of ports.now }
    ensures { Gives (λ p. p) result (put_of ports.now w.now) }
{
    let target = output(index, ports, w.target.bytes())?;
    let first = input(index, ports, w.first.bytes())?;
    let second = second(index, ports, &w.second)?;
    Ok(Put {
        target,
        first,
        second,
    })
}

fn puts(
    alloc: Global,
    index: &NameIndex,
    ports: &[Port],
    writes: &[Write],
) -> Result<List<Put>, Halt>
    requires few { length ports.now < 2 ^ 32 }
    requires names { index.now ≡ names_of ports.now }
    ensures { Gives (λ p. p) result (each (put_of ports.now) writes.now) }
{
    let mut list = List::new(alloc);
    for w in writes {
        list.push(put(index, ports, w)?)?;
    }
    Ok(list)
}

fn senses(
    alloc: Global,
    index: &NameIndex,
    ports: &[Port],
    names: &[Text],
) -> Result<List<u32>, Halt>
    requires few { length ports.now < 2 ^ 32 }
    requires names { index.now ≡ names_of ports.now }
    ensures { Gives (λ s. s) result (each (input_named ports.now) names.now) }
{
    let mut list = List::new(alloc);
    for n in names {
        list.push(input(index, ports, n.bytes())?)?;
    }
    Ok(list)
}

fn is_sensed(set: &NumberSet, p: &Put) -> bool
    ensures { result ≡ is_sensed set.now p.now }
{
    match &p.second {
        None => set.has(p.first),
        Some(s) => set.has(p.first) && set.has(s.port),
    }
}

fn all_sensed(set: &NumberSet, puts: &[Put]) -> bool
    ensures { result ≡ list_all (is_sensed set.now) puts.now }
{
    puts.iter().all(|p| is_sensed(set, p))
}

fn targets(alloc: Global, puts: &[Put]) -> Result<List<u32>, NoMemory>
    ensures { IfOk result (λ l. l ≡ map (λ p. p.target) puts.now) }
{
    let mut list = List::new(alloc);
    for p in puts {
        list.push(p.target)?;
    }
    Ok(list)
}

fn all_written(set: &NumberSet, ports: &[Port]) -> bool
    requires { length ports.now < 2 ^ 32 }
    ensures { result ≡ are_written set.now 0 ports.now }
{
    for (i, p) in ports.iter().enumerate() {
        if p.output && !set.has(i as u32) {
            return false;
        }
    }
    true
}

// Whether the sensitivity names each port once, and all that are read, and each output is written once.
#[tactic(auto, unfolding(crate::specs::Resolved::is_complete))]
fn is_complete(
    alloc: Global,
    ports: &[Port],
    senses: &[u32],
    puts: &[Put],
) -> Result<bool, NoMemory>
    requires { length ports.now < 2 ^ 32 }
    ensures { IfOk result (λ b. b ≡ is_complete ports.now senses.now puts.now) }
{
    let mut sensed = NumberSet::new(alloc);
    if !add_numbers(&mut sensed, senses)? {
        return Ok(false);
    }
    if !all_sensed(&sensed, puts) {
        return Ok(false);
    }
    let mut written = NumberSet::new(alloc);
    if !add_numbers(&mut written, targets(alloc, puts)?.as_slice())? {
        return Ok(false);
    }
    Ok(all_written(&written, ports))
}

fn agrees(top: &[u8], t: &Tree) -> bool
    ensures { result ≡ agrees top.now t.now }
{
    t.head.top.bytes() == top
        && t.constructor.class.bytes() == top
        && t.constructor.method.bytes() == t.body.function.bytes()
}

/// The design that a tree denotes for a top.
#[tactic(auto, unfolding(crate::specs::Resolved::design_of))]
pub fn design(alloc: Global, top: &[u8], t: &Tree) -> Result<Design, Halt>
    ensures value { Gives (λ d. d) result (design_of top.now t.now) }
    ensures few { IfOk result (λ d. length d.ports < 2 ^ 32) }
{
    let ports = ports(alloc, t.head.groups.as_slice())?;
    if ports.len() > MOST_PORTS || !agrees(top, t) {
        return Err(Halt::Other);
    }
    let index = named(alloc, top, t.body.function.bytes(), ports.as_slice())?;
    let senses = senses(
        alloc,
        &index,
        ports.as_slice(),
        t.constructor.senses.as_slice(),
    )?;
    let puts = puts(alloc, &index, ports.as_slice(), t.body.writes.as_slice())?;
    if !is_complete(alloc, ports.as_slice(), senses.as_slice(), puts.as_slice())? {
        return Err(Halt::Other);
    }
    let top = copy(alloc, top)?;
    Ok(Design {
        top,
        ports,
        senses,
        puts,
    })
}
