ghost use Rattle.std.specs.Prelude.{◌≡◌, [], Some};
ghost use Rattle.nim_parse.specs.Nesting.{open_after};

use crate::Sections;
use std::marker::Model;

/// A driver that the grammar takes: its lines, whose statements nest. Contracts see it as its `Sections`.
#[derive(Debug, Drop)]
pub struct Tree {
    sections: Sections,
}

impl Model for Tree {
    ghost use Rattle.std.specs.Prelude.{◌≡◌, [], Some};
    ghost use Rattle.nim_parse.specs.contracts.sections.Sections as plain;
    ghost use Rattle.nim_parse.specs.declared.sections.Sections.{Sections};
    ghost use Rattle.nim_parse.specs.Nesting.{open_after};

    ghost Value = { Sections };

    ghost coded = { plain.the_row.coded };

    ghost view = { λ t. t.sections };

    ghost invariant = { λ t. open_after [] t.sections.statements ≡ Some [] };
}

impl Tree {
    pub(crate) fn new(sections: Sections) -> Tree
        requires { open_after [] sections.statements ≡ Some [] }
        ensures { result ≡ sections }
    {
        Tree { sections }
    }

    /// Its lines. Behind the statements nothing is open.
    pub fn sections(&self) -> &Sections
        ensures sections { result.now ≡ self.now }
        ensures nest { open_after [] self.now.statements ≡ Some [] }
    {
        &self.sections
    }
}
