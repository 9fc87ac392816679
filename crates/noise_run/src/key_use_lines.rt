//! The lines of the keys that a call of a party uses.

ghost use Rattle.std.specs.Prelude.{◌≡◌, OnOk, Some};
ghost use Rattle.noise_trace.specs.KeyUses.{use_value};
ghost use Rattle.noise_trace.specs.KeyUses.KeyUseValue.{Transport};
ghost use Rattle.noise_run.specs.Printed.{Appended};
ghost use Rattle.noise_run.specs.KeyUseLines.{RenewsBeforeLastNonce, key_use_lines, selected_opening, transport_lines};
ghost use Rattle.noise_run.specs.Selection.{selects_handshake, selects_role, selects_transport};

use crate::trace_lines::{
    About, act_word, push_opening_lines, push_step_lines, push_transport_line, transport_call_word,
};
use noise_names::Role;
use noise_trace::{KeyUse, Opening};
use std::alloc::{AllocError, Global};

/// Which lines of a key schedule are printed.
#[derive(Clone, Copy)]
pub struct Selection {
    /// A first line that names the words of the others.
    pub heading: bool,
    /// Those of the start and of handshake messages.
    pub handshake: bool,
    /// Those of the transport keys, of transport messages and of datagrams.
    pub transport: bool,
    /// Those of the initiator, and of the responder.
    pub initiator: bool,
    pub responder: bool,
}

/// All lines, of both parts and both roles, and no heading.
pub const ALL_LINES: Selection = Selection {
    heading: false,
    handshake: true,
    transport: true,
    initiator: true,
    responder: true,
};

impl Selection {
    fn selects_role(&self, role: Role) -> bool
        ensures { result ≡ selects_role self.now role }
    {
        match role {
            Role::Initiator => self.initiator,
            Role::Responder => self.responder,
        }
    }

    /// Whether the lines of this role's start and handshake messages are printed.
    pub fn selects_handshake(&self, role: Role) -> bool
        ensures { result ≡ selects_handshake self.now role }
    {
        self.handshake && self.selects_role(role)
    }

    /// Whether this role's lines of the transport and of datagrams are printed.
    pub fn selects_transport(&self, role: Role) -> bool
        ensures { result ≡ selects_transport self.now role }
    {
        self.transport && self.selects_role(role)
    }
}

/// Appends the lines of the keys of a message.
pub fn push_key_use(
    alloc: Global,
    selection: Selection,
    about: About,
    message: &[u8],
    key_use: &KeyUse,
    lines: &mut Vec<Vec<u8>>,
) -> Result<(), AllocError>
    ensures { RenewsBeforeLastNonce (use_value key_use.now) → OnOk result
        (Appended lines.old lines.new (key_use_lines selection about message.now (use_value key_use.now))) }
{
    match key_use {
        KeyUse::Nothing => Ok(()),
        KeyUse::Message { steps, opening } => {
            if selection.selects_handshake(about.role) {
                push_step_lines(alloc, about, message, steps, lines)?;
            }
            match opening {
                Some(opening) => push_opening(alloc, selection, about.role, opening, lines),
                None => Ok(()),
            }
        }
        KeyUse::Transport {
            nonce,
            key,
            renewed,
        } => push_transport(alloc, selection, about, *nonce, key, renewed, lines),
    }
}

// Appends the lines of the opening.
fn push_opening(
    alloc: Global,
    selection: Selection,
    role: Role,
    opening: &Opening,
    lines: &mut Vec<Vec<u8>>,
) -> Result<(), AllocError>
    ensures { OnOk result (Appended lines.old lines.new (selected_opening selection role (Some opening.now))) }
{
    if !selection.selects_transport(role) {
        return Ok(());
    }
    push_opening_lines(
        alloc,
        role,
        &opening.state,
        &opening.initiator,
        &opening.responder,
        lines,
    )
}

// Appends the lines of a transport message, and of the key after it if it is rekeyed then.
fn push_transport(
    alloc: Global,
    selection: Selection,
    about: About,
    nonce: u64,
    key: &[u8; 32],
    renewed: &Option<[u8; 32]>,
    lines: &mut Vec<Vec<u8>>,
) -> Result<(), AllocError>
    ensures { RenewsBeforeLastNonce (Transport nonce key.now renewed.now) → OnOk result
        (Appended lines.old lines.new (transport_lines selection about nonce key.now renewed.now)) }
{
    if !selection.selects_transport(about.role) {
        return Ok(());
    }
    let name = act_word(about.act);
    let call = transport_call_word(about.act);
    push_transport_line(alloc, about.role, name, call, key, nonce, lines)?;
    match renewed {
        Some(key) => push_transport_line(
            alloc,
            about.role,
            "renewed",
            "Rekey",
            key,
            nonce.saturating_add(1),
            lines,
        ),
        None => Ok(()),
    }
}
