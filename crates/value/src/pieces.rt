// The pieces of a value, written one after another.
ghost use Rattle.std.specs.Prelude.{◌≡◌};
ghost use Rattle.rules.specs.Answers.{first_refusal};
ghost use Rattle.rules.specs.Lent.{contents};
ghost use Rattle.rules.specs.Value.{escape_verdict, is_unbroken};
ghost use Rattle.source.specs.Meaning.{verdict_meant};
ghost use Rattle.list.specs.Entries.{list_meant};
ghost use Rattle.output.specs.Places.{SameBytes};
ghost use Rattle.value.specs.Meaning.{reached};
ghost use Rattle.value.specs.Pieces.{PartsAccepted, AllWritten};

use crate::piece;
use cst::StringPart;
use list::List;
use output::Output;
use rules::{Reason, kind};
use source::Refusal;

// The first refusal of an escape.
pub(crate) fn check_escapes(text: &[u8], parts: List<'_>) -> Result<(), Refusal>
    ensures { verdict_meant result ≡ first_refusal (escape_verdict text.now) (contents (list_meant parts.entry)) }
{
    for entry in parts {
        piece::check_escape(text, entry)?;
    }
    Ok(())
}

// The parts of a string of a text that nothing is said against, and the indent that is taken off.
#[derive(Clone, Copy)]
pub(crate) struct Pieces<'a> {
    pub text: &'a [u8],
    pub indent: usize,
    pub parts: List<'a>,
    pub ghost accepted: { PartsAccepted text.now (contents (list_meant parts)) },
}

impl Pieces<'_> {
    // "Unbroken" means nothing taken off and no second part, a hole included.
    #[tactic(auto, using(crate::proofs::Unbroken::tests))]
    pub(crate) fn is_unbroken(self) -> bool
        ensures { result ≡ is_unbroken self.entry.text.now self.entry.indent (contents (list_meant self.entry.parts)) }
    {
        if self.parts.places() != 1 {
            return false;
        }
        let first = self.parts.get(0);
        if first.kind != kind::STRING_INNER {
            return false;
        }
        let line = source::resolve(self.text, first.at);
        string::line_length(line, self.indent) == line.len()
    }

    // Writes every piece. "a position past its end gives 46", also where there is nothing to write.
    pub(crate) fn write(self, output: &mut Output<'_>) -> Result<(), Refusal>
        ensures written { AllWritten self.entry.text.now self.entry.indent (contents (list_meant self.entry.parts)) output.old.at output.old.bytes.now (reached result output.new) output.new.bytes.now }
        ensures same { SameBytes output.old output.new }
    {
        for entry in self.parts {
            let Ok(part) = StringPart::try_from(entry) else {
                return Ok(());
            };
            piece::write_part(self.text, self.indent, part, output)?;
        }
        if output.end() < output.at {
            return Err(source::refuse(Reason::OutputFull, source::nowhere()));
        }
        Ok(())
    }
}
