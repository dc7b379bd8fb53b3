//! The members of a configuration's lists.
ghost use Rattle.std.specs.Prelude.{◌≡◌, ◌++◌, OnOk, map};
ghost use Rattle.config_text.specs.Members.{bfd_line, kind_word, link_text, links_text, service_text, services_text, sibling_text, siblings_text};
ghost use Rattle.topology.specs.Interface.{link_values};

use crate::lines::{push_address, push_number, push_text};
use process_packet::{Service, Sibling};
use segment_switch::LinkKind;
use std::alloc::AllocError;
use topology::Interface;

/// The word of a configuration for the kind of a link.
fn kind_word(kind: LinkKind) -> &'static [u8]
    ensures { result.now ≡ kind_word kind }
{
    match kind {
        LinkKind::Core => b"core",
        LinkKind::Parent => b"parent",
        LinkKind::Child => b"child",
    }
}

/// Adds the line of a link over which BFD is answered, if it is.
fn push_bfd(text: &mut Vec<u8>, bfd: bool) -> Result<(), AllocError>
    ensures { OnOk result (text.new.items ≡ text.old.items ++ bfd_line bfd) }
{
    if bfd {
        text.extend_from_slice(b"bfd = true\n")
    } else {
        Ok(())
    }
}

/// Adds a link.
#[tactic(auto, unfolding(crate::specs::Members::link_text))]
fn push_link(text: &mut Vec<u8>, link: &Interface<'_>) -> Result<(), AllocError>
    ensures { OnOk result (text.new.items ≡ text.old.items ++ link_text (link_values link.now)) }
{
    text.extend_from_slice(b"\n[[link]]\n")?;
    push_number(text, b"id", link.id)?;
    push_text(text, b"kind", kind_word(link.kind))?;
    push_address(text, b"local", &link.local)?;
    push_address(text, b"remote", &link.remote)?;
    text.extend_from_slice(b"bands = 1\n")?;
    push_text(text, b"neighbor", link.neighbor.as_bytes())?;
    push_bfd(text, link.bfd)?;
    Ok(())
}

/// Adds the links.
pub(crate) fn push_links(text: &mut Vec<u8>, links: &[Interface<'_>]) -> Result<(), AllocError>
    ensures { OnOk result (text.new.items ≡ text.old.items ++ links_text (map link_values links.now)) }
{
    for link in links {
        push_link(text, link)?;
    }
    Ok(())
}

/// Adds a sibling's interface.
#[tactic(auto, unfolding(crate::specs::Members::sibling_text))]
fn push_sibling(text: &mut Vec<u8>, sibling: &Sibling) -> Result<(), AllocError>
    ensures { OnOk result (text.new.items ≡ text.old.items ++ sibling_text sibling.now) }
{
    text.extend_from_slice(b"\n[[sibling]]\n")?;
    push_number(text, b"id", sibling.id)?;
    push_text(text, b"kind", kind_word(sibling.kind))?;
    push_address(text, b"at", &sibling.at)?;
    Ok(())
}

/// Adds the siblings' interfaces.
pub(crate) fn push_siblings(text: &mut Vec<u8>, siblings: &[Sibling]) -> Result<(), AllocError>
    ensures { OnOk result (text.new.items ≡ text.old.items ++ siblings_text siblings.now) }
{
    for sibling in siblings {
        push_sibling(text, sibling)?;
    }
    Ok(())
}

/// Adds a service.
#[tactic(auto, unfolding(crate::specs::Members::service_text))]
fn push_service(text: &mut Vec<u8>, service: &Service) -> Result<(), AllocError>
    ensures { OnOk result (text.new.items ≡ text.old.items ++ service_text service.now) }
{
    text.extend_from_slice(b"\n[[service]]\n")?;
    push_number(text, b"number", service.number)?;
    push_address(text, b"at", &service.at)
}

/// Adds the services.
pub(crate) fn push_services(text: &mut Vec<u8>, services: &[Service]) -> Result<(), AllocError>
    ensures { OnOk result (text.new.items ≡ text.old.items ++ services_text services.now) }
{
    for service in services {
        push_service(text, service)?;
    }
    Ok(())
}
