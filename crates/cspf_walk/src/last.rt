//! The last link of a walk, kept as a reference into the table, so that no link is copied.

ghost use Rattle.std.specs.Prelude.{◌≡◌, option_map};

use cspf_model::Link;
use std::marker::Model;

/// The last link of a walk. A walk without links has none.
#[derive(Drop)]
pub struct Last<'a> {
    /// A reference to the link among the table's links, or `None` if the walk has no link.
    pub link: Option<&'a Link>,
}

impl<'a> Model for Last<'a> {
    ghost use Rattle.std.specs.Prelude.{Option, option_map};
    ghost use Rattle.std.specs.Coded.{coded_option};
    ghost use Rattle.cspf_model.specs.declared.link.Link.{Link};
    ghost use Rattle.cspf_model.specs.contracts.link.Link.{the_row};

    ghost Value = { Option Link };

    ghost coded = { coded_option the_row.coded };

    ghost view = { λ a. option_map (λ link. link.now) a.link };
}

impl<'a> Last<'a> {
    /// The link, if there is one.
    pub fn get(&self) -> Option<&'a Link>
        ensures { option_map (λ link. link.now) result ≡ self.now }
    {
        self.link
    }

    /// A copy of this last link.
    pub fn same(&self) -> Last<'a>
        ensures { result ≡ self.now }
    {
        Last { link: self.link }
    }
}
