//! Names of tables.
ghost use Rattle.std.specs.Prelude.{◌≡◌, ◌↔◌, IsOk, IsTrue, IfOk, IfSome, IfNone, true, false};
ghost use Rattle.st_text.specs.Names.{is_table_name, namespace_of, has_dot, is_dot};
ghost use Rattle.std.specs.List.{before_first, after_first};
ghost use Rattle.st_text.specs.Texts.{same};

use crate::name::{BadName, Name, is_text_of_name};
use st_text::Text;
use std::marker::Model;

/// The name of a table: a name, or a namespace, one dot and a name, each of 1 to 32 bytes of
/// `A-Z a-z 0-9 _`, as in Apache Accumulo.
#[derive(Debug, Drop)]
pub struct TableName {
    text: Text<65>,
}

impl Model for TableName {
    ghost use Rattle.std.specs.Prelude.{ℕ, List, IsTrue};
    ghost use Rattle.st_text.specs.Names.{is_table_name};

    ghost Value = { List ℕ };

    ghost view = { λ t. t.text };

    ghost invariant = { λ t. IsTrue (is_table_name t.text) };
}

// The parts before and after the first dot, if there is one.
fn split_at_dot(text: &str) -> Option<(&str, &str)>
    ensures some { IfSome result (λ parts. (has_dot text.now ≡ true)
        × (parts.0.now ≡ before_first is_dot text.now) × (parts.1.now ≡ after_first is_dot text.now)) }
    ensures none { IfNone result (has_dot text.now ≡ false) }
{
    text.split_once('.')
}

// Whether a text is the name of a table.
fn is_text_of_table(text: &str) -> bool
    ensures { result ≡ is_table_name text.now }
{
    match split_at_dot(text) {
        Some((namespace, name)) => is_text_of_name(namespace) && is_text_of_name(name),
        None => is_text_of_name(text),
    }
}

impl TableName {
    /// The name with this text, or `BadName` if the text is not one.
    pub fn new(text: &str) -> Result<TableName, BadName>
        ensures named { IsOk result ↔ IsTrue (is_table_name text.now) }
        ensures value { IfOk result (λ name. name ≡ text.now) }
    {
        if !is_text_of_table(text) {
            return Err(BadName);
        }
        match Text::new(text) {
            Some(text) => Ok(TableName { text }),
            None => Err(BadName),
        }
    }

    /// An equal name.
    pub fn copy(&self) -> TableName
        ensures { result ≡ self.now }
    {
        TableName {
            text: self.text.copy(),
        }
    }

    /// The text of the name.
    pub fn as_str(&self) -> &str
        ensures value { result.now ≡ self.now }
        ensures name { IsTrue (is_table_name self.now) }
    {
        self.text.as_str()
    }

    /// Whether this is the name's text, byte by byte.
    pub fn is(&self, text: &str) -> bool
        ensures { result ≡ same self.now text.now }
    {
        self.text.is(text)
    }

    /// The table's namespace, if its name has one.
    pub fn namespace(&self) -> Option<Name>
        ensures { result ≡ namespace_of self.now }
    {
        match split_at_dot(self.text.as_str()) {
            Some((namespace, _)) => Name::new(namespace).ok(),
            None => None,
        }
    }
}
