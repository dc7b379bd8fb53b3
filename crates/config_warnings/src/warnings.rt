//! All warnings of a configuration.

ghost use Rattle.std.specs.Prelude.{◌≡◌, ◌++◌, ◌<◌, ◌||◌, [], IfOk, OnOk, find, length};
ghost use Rattle.process_packet.specs.Underlay.{same_underlay};
ghost use Rattle.config_warnings.specs.Warnings.{is_own, of_ends, of_link, of_links, of_neighbor, of_own, of_sibling, of_siblings, of_sizes, of_twin, twin_of, warnings_of, when};

use crate::addresses::{is_one_version, is_same, is_unspecified};
use crate::warning::Warning;
use address_kinds::is_host_for;
use process_packet::{Config, Link, Sibling, Underlay};
use std::alloc::{AllocError, Global};

/// Adds a warning where it is there.
fn add_when(list: &mut Vec<Warning>, is_there: bool, warning: Warning) -> Result<(), AllocError>
    ensures { OnOk result (list.new.items ≡ list.old.items ++ when is_there warning) }
{
    if is_there {
        list.push(warning)?;
    }
    Ok(())
}

/// Adds what is to be said of the configuration's own values, on a machine with so many cores.
fn add_of_sizes(list: &mut Vec<Warning>, config: &Config, cores: usize) -> Result<(), AllocError>
    ensures { OnOk result (list.new.items ≡ list.old.items ++ of_sizes config.now cores) }
{
    let internal = config.internal;
    let buffers = config.buffers;
    let capacity = config.capacity;
    let processors = config.processors;
    let unspecified = is_unspecified(&internal.ip);
    let few_buffers = buffers < capacity;
    let many_processors = cores < usize::from(processors);
    add_when(list, unspecified, Warning::InternalUnspecified { internal })?;
    add_when(list, few_buffers, Warning::FewBuffers { buffers, capacity })?;
    let many = Warning::ManyProcessors { processors, cores };
    add_when(list, many_processors, many)
}

/// The first of these links whose own address is this one.
fn twin_of(links: &[Link], local: &Underlay) -> Option<Link>
    ensures { result ≡ twin_of links.now local.now }
{
    links
        .iter()
        .copied()
        .find(|other| is_same(&other.local, local))
}

/// Adds that a link before this one has the same address.
fn add_of_twin(list: &mut Vec<Warning>, before: &[Link], own: &Link) -> Result<(), AllocError>
    ensures { OnOk result (list.new.items ≡ list.old.items ++ of_twin (twin_of before.now own.now.local) own.now) }
{
    match twin_of(before, &own.local) {
        Some(other) => {
            let twin = Warning::SameLocal {
                link: own.id,
                other: other.id,
                local: own.local,
            };
            add_when(list, true, twin)
        }
        None => Ok(()),
    }
}

/// Adds what is to be said of a link's two ends.
fn add_of_ends(list: &mut Vec<Warning>, own: &Link) -> Result<(), AllocError>
    ensures { OnOk result (list.new.items ≡ list.old.items ++ of_ends own.now) }
{
    let (link, local, remote) = (own.id, own.local, own.remote);
    let comes_back = is_same(&remote, &local);
    let other_version = !is_one_version(&local.ip, &remote.ip);
    let no_host = !is_host_for(&local.ip, &remote.ip);
    add_when(list, comes_back, Warning::RemoteIsLocal { link, remote })?;
    let versions = Warning::OtherVersion {
        link,
        local,
        remote,
    };
    add_when(list, other_version, versions)?;
    add_when(list, no_host, Warning::NoHost { link, remote })
}

/// Adds that a link names no AS at its other end.
fn add_of_neighbor(list: &mut Vec<Warning>, own: &Link) -> Result<(), AllocError>
    ensures { OnOk result (list.new.items ≡ list.old.items ++ of_neighbor own.now) }
{
    let unnamed = own.neighbor.is_none();
    add_when(list, unnamed, Warning::NoNeighbor { link: own.id })
}

/// Adds what is to be said of a link, after these ones.
fn add_of_own(
    list: &mut Vec<Warning>,
    internal: &Underlay,
    before: &[Link],
    own: &Link,
) -> Result<(), AllocError>
    ensures { OnOk result (list.new.items ≡ list.old.items ++ of_own internal.now before.now own.now) }
{
    let is_internal = is_same(&own.local, internal);
    let same = Warning::LocalIsInternal {
        link: own.id,
        local: own.local,
    };
    add_when(list, is_internal, same)?;
    add_of_twin(list, before, own)?;
    add_of_ends(list, own)?;
    add_of_neighbor(list, own)
}

/// Adds what is to be said of the link at a place of the list.
fn add_of_link(list: &mut Vec<Warning>, config: &Config, index: usize) -> Result<(), AllocError>
    requires { index < length config.now.links.items }
    ensures { OnOk result (list.new.items ≡ list.old.items ++ of_link config.now index) }
{
    match config.links.get(index) {
        Some(own) => add_of_own(list, &config.internal, &config.links[..index], own),
        None => Ok(()),
    }
}

/// Adds what is to be said of all links.
fn add_of_links(list: &mut Vec<Warning>, config: &Config) -> Result<(), AllocError>
    ensures { OnOk result (list.new.items ≡ list.old.items ++ of_links config.now (length config.now.links.items)) }
{
    for index in 0..config.links.len() {
        add_of_link(list, config, index)?;
    }
    Ok(())
}

/// Whether an address is one of this router's.
fn is_own(config: &Config, at: &Underlay) -> bool
    ensures { result ≡ is_own config.now at.now }
{
    is_same(at, &config.internal) || twin_of(config.links.as_slice(), at).is_some()
}

/// Adds what is to be said of the sibling at a place of the list.
fn add_of_sibling(list: &mut Vec<Warning>, config: &Config, index: usize) -> Result<(), AllocError>
    requires { index < length config.now.siblings.items }
    ensures { OnOk result (list.new.items ≡ list.old.items ++ of_sibling config.now index) }
{
    match config.siblings.get(index) {
        Some(Sibling { id, at, .. }) => {
            let own = Warning::OwnSibling {
                sibling: *id,
                at: *at,
            };
            add_when(list, is_own(config, at), own)
        }
        None => Ok(()),
    }
}

/// Adds what is to be said of all siblings.
fn add_of_siblings(list: &mut Vec<Warning>, config: &Config) -> Result<(), AllocError>
    ensures { OnOk result (list.new.items ≡ list.old.items ++ of_siblings config.now (length config.now.siblings.items)) }
{
    for index in 0..config.siblings.len() {
        add_of_sibling(list, config, index)?;
    }
    Ok(())
}

/// The warnings of a configuration on a machine with so many cores: of its own values, then of its links and
/// of its siblings, each in the order of its list.
pub fn warnings_of(alloc: Global, config: &Config, cores: usize) -> Result<Vec<Warning>, AllocError>
    ensures { IfOk result (λ list. list.items ≡ warnings_of config.now cores) }
{
    let mut list = Vec::new(alloc);
    add_of_sizes(&mut list, config, cores)?;
    add_of_links(&mut list, config)?;
    add_of_siblings(&mut list, config)?;
    Ok(list)
}
