//! The indentation of lines.

ghost use Rattle.std.specs.Prelude.{◌≡◌, suc};
ghost use Rattle.v_writer.specs.Layout.{indentation};
ghost use Rattle.v_writer.specs.Margins.{levels};
ghost use Rattle.v_writer.specs.Sheets.{appended};

use crate::page::Page;

/// How far a line is indented: not at all, or by two spaces more than another.
#[derive(Clone, Copy)]
pub enum Margin<'a> {
    /// Not at all.
    Edge,
    /// By two spaces more than this.
    Within(&'a Margin<'a>),
}

impl Margin<'_> {
    /// The margin of a line that isn't indented.
    pub fn edge() -> Margin<'static>
        ensures { levels result ≡ 0 }
    {
        Margin::Edge
    }

    /// The margin of the lines in a module or block whose own line has this margin.
    pub fn inner(&self) -> Margin<'_>
        ensures { levels result ≡ suc (levels self.now) }
    {
        Margin::Within(self)
    }

    /// Appends the spaces.
    #[tactic(auto, using(crate::proofs::Sheets::sheets, crate::proofs::Margins::margins))]
    pub fn write(self, page: &mut Page)
        ensures { page.new ≡ appended page.old (indentation (levels self.entry)) }
    {
        match self {
            Margin::Edge => page.append(b""),
            Margin::Within(outer) => {
                page.append(b"  ");
                outer.write(page);
            }
        }
    }
}
