//! Prints the whole source: header, enums, composites, messages. Each function promises the text of
//! specs/Source.antt.
#![tactic(auto, using(printing::proofs::Writing::writing))]

ghost use Rattle.printing.specs.Written.{Wrote};
ghost use Rattle.xmltoproto.specs.Source.{package_line, header, source};

use crate::composites::CompositeText;
use crate::enums::EnumText;
use crate::messages::MessageText;
use crate::walk::write_all;
use index::seen::Index;
use model::{COMPOSITE, ENUM, MESSAGE};
use printing::Output;

/// Writes the package line, none for an empty name.
fn write_package(out: &mut Output<'_>, name: &[u8])
    ensures { Wrote out.old out.new (package_line name.now) }
{
    if name.len() == 0 {
        return;
    }
    out.text(b"package ");
    out.text(name);
    out.text(b";\n\n");
}

/// Writes the header.
fn write_header(out: &mut Output<'_>, s: &Index<'_>)
    ensures { Wrote out.old out.new (header s.now) }
{
    out.text(b"syntax = \"proto3\";\n\n");
    write_package(out, s.package());
    out.text(b"import \"sbe/annotations.proto\";\n\noption (sbe.schema_id) = ");
    out.decimal(s.id());
    out.text(b";\noption (sbe.version) = ");
    out.decimal(s.version());
    out.text(b";\n\n");
}

/// Writes the source of a schema.
pub fn write_source(out: &mut Output<'_>, s: &Index<'_>)
    ensures { Wrote out.old out.new (source s.now) }
{
    write_header(out, s);
    write_all(out, s, ENUM, &EnumText);
    write_all(out, s, COMPOSITE, &CompositeText);
    write_all(out, s, MESSAGE, &MessageText);
}
