ghost use Rattle.std.specs.Prelude.{Some};
ghost use Rattle.run_report.specs.Lines.{reason_text};

use std::fmt::{self, Display, Formatter, Write};
use vol_units::LayerName;

/// Why a replica whose folder was opened is not read. A layer that is none is the head.
#[derive(Debug, Clone, Copy, PartialEq, Eq, Drop)]
pub enum Reason<'a> {
    /// The folder is unclean: the word of its flag.
    Unclean(&'a str),
    /// A file of the folder is damaged at this place.
    Damaged {
        file: &'a str,
        place: u64,
    },
    /// The layer has another shape than in the replica that is read.
    Shape(Option<LayerName>),
    /// The layer reads otherwise than in that replica, at this block first.
    Differs {
        layer: Option<LayerName>,
        block: u32,
    },
}

impl Display for Reason<'_> {
    ghost output = { λ why. Some (reason_text why) };

    fn fmt<W: Write>(&self, f: &mut Formatter<W>) -> fmt::Result {
        match self {
            Reason::Unclean(flag) => write!(f, "unclean {flag}"),
            Reason::Damaged { file, place } => write!(f, "damaged {file} {place}"),
            Reason::Shape(None) => f.write_str("shape head"),
            Reason::Shape(Some(name)) => write!(f, "shape {}", name.as_str()),
            Reason::Differs { layer: None, block } => write!(f, "differs head {block}"),
            Reason::Differs {
                layer: Some(name),
                block,
            } => write!(f, "differs {} {block}", name.as_str()),
        }
    }
}
