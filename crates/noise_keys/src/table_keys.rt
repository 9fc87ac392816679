//! A toy whose DH results are given in advance.

ghost use Rattle.std.specs.Prelude.{◌≡◌, ◌↔◌, ◌==◌, ◌<◌, [], ◌∷◌, ◌++◌, length, IsErr, OnOk, OnErr};

use crate::{Keys, Own};
use arrayvec::ArrayVec;
use std::marker::Model;
use thiserror::Error;

// One DH result of a table.
#[derive(Clone, Copy, Debug, Default, Drop, PartialEq, Eq)]
struct Entry {
    own: Own,
    remote: [u8; 32],
    answer: [u8; 32],
}

impl Model for Entry {
    ghost use Rattle.noise_keys.specs.Table.{TableEntry};

    ghost Value = { TableEntry };

    ghost view = { λ entry. record { own = entry.own; remote = entry.remote; answer = entry.answer } };

    ghost inverse = { λ entry. record { own = entry.own; remote = entry.remote; answer = entry.answer } };
}

impl Entry {
    ghost use Rattle.noise_keys.specs.Table.{is_for};

    // Whether it is for this key pair and that remote public key.
    fn is_for(&self, own: Own, remote: &[u8; 32]) -> bool
        ensures { result ≡ is_for own remote.now self.now }
    {
        self.own == own && self.remote == *remote
    }
}

/// Keys for tests and examples, whose DH results are in a table. **A toy, not secure at all:** there is no private key
/// after it, and nothing but its maker sees to it that the DH results of two parties are the same.
///
/// It holds at most 8 entries. The DH result of a key pair to a remote public key is that of the first entry for the
/// two; there is none where there is no such entry, whether or not the table has a public key of that key pair.
#[derive(Debug, Drop)]
pub struct TableKeys {
    e: Option<[u8; 32]>,
    s: Option<[u8; 32]>,
    entries: ArrayVec<Entry, 8>,
}

/// A table has 8 entries, and takes no more.
#[derive(Clone, Copy, Debug, PartialEq, Eq, Error)]
#[error("a table of answers takes no more than 8 entries")]
pub struct TableFull;

impl Model for TableKeys {
    ghost use Rattle.noise_keys.specs.Table.{Table};

    ghost Value = { Table };

    ghost view = { λ keys. record { e = keys.e; s = keys.s; entries = keys.entries.items } };
}

impl TableKeys {
    /// A table without entries, and with these public keys.
    pub fn new(e: Option<[u8; 32]>, s: Option<[u8; 32]>) -> TableKeys
        ensures { result ≡ record { e = e; s = s; entries = [] } }
    {
        TableKeys {
            e,
            s,
            entries: ArrayVec::new(),
        }
    }

    /// Adds an entry after the others: the DH result of this key pair to that remote public key.
    ///
    /// A table with 8 entries is `TableFull`, and stays as it was.
    pub fn add(&mut self, own: Own, remote: [u8; 32], answer: [u8; 32]) -> Result<(), TableFull>
        ensures full { IsErr result ↔ (length self.old.entries ≡ 8) }
        ensures ok { OnOk result (self.new ≡ record self.old {
          entries = self.old.entries ++ record { own = own; remote = remote; answer = answer } ∷ [];
        }) }
        ensures err { OnErr result (self.new ≡ self.old) }
    {
        match self.entries.try_push(Entry {
            own,
            remote,
            answer,
        }) {
            Ok(()) => Ok(()),
            Err(_) => Err(TableFull),
        }
    }
}

impl Keys for TableKeys {
    ghost use Rattle.noise_keys.specs.Keys.{key_of};
    ghost use Rattle.noise_keys.specs.Table.{dh_result_in};

    ghost pairs = { λ keys. record {
      public = λ own. key_of own keys.e keys.s;
      agree = λ own remote. dh_result_in keys.entries own remote;
    } };

    fn public(&self, own: Own) -> Option<[u8; 32]> {
        match own {
            Own::Ephemeral => self.e,
            Own::Static => self.s,
        }
    }

    fn agree(&self, own: Own, remote: &[u8; 32]) -> Option<[u8; 32]> {
        let entry = self.entries.iter().find(|entry| entry.is_for(own, remote))?;
        Some(entry.answer)
    }
}
