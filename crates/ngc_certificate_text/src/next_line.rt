ghost use Rattle.std.specs.Prelude.{◌≡◌, ◌≢◌, ◌+◌, ◌-◌, ◌≤◌, ◌∷◌, ℕ, List, length, MatchResult};
ghost use Rattle.std.specs.Prelude.{OnOk, IfOk, Err, IsTrue, ◌↔◌};
ghost use Rattle.ngc_certificate_text.specs.Ahead.{name_of, wrong_line, IsSound, left_from};
ghost use Rattle.ngc_certificate_text.specs.Ahead.{lines_ahead};
ghost use Rattle.ngc_certificate_text.specs.Lines.{parsed_setting, parsed_piece, parsed_end};
ghost use Rattle.ngc_certificate_text.specs.ParsedPart.{next_number};
ghost use Rattle.ngc_certificate_text.specs.LineContent.{IsNext, LineResultIs, after_content, fault_of, parsed_motion_or_entry};
ghost use Rattle.ngc_certificate_text.specs.LineContent.{content_by, content_with, motion_content};

use crate::expected::{BegunMotion, Expected, RemainingMotions};
use crate::fault::CertificateFault;
use crate::line_content::LineContent;
use crate::lines::{
    EntryLine, LineFlaw, counts_line, end_line, entry_line, piece_line, setting_line,
    setting_motion, version_line,
};
use crate::piece::Setting;

const LINE_BYTES: usize = 256;

/// The next line of a certificate: its kind, and its number from 1.
#[derive(Clone, Copy)]
pub struct NextLine {
    pub expected: Expected,
    pub number: u32,
}

fn name(setting: Setting) -> &'static [u8]
    ensures { result.now ≡ name_of setting }
{
    match setting {
        Setting::Off => b"off",
        Setting::On => b"on",
    }
}

fn header(line: &[u8]) -> Result<LineContent, LineFlaw>
    ensures { result ≡ content_by Expected.Header line.now }
{
    match version_line(line) {
        Ok(version) => Ok(LineContent::Header(version)),
        Err(flaw) => Err(flaw),
    }
}

fn setting_content(setting: Setting, line: &[u8]) -> Result<LineContent, LineFlaw>
    ensures { result ≡ content_with (LineContent.Setting setting) (parsed_setting (name_of setting) line.now) }
{
    match setting_line(name(setting), line) {
        Ok(count) => Ok(LineContent::Setting(setting, count)),
        Err(flaw) => Err(flaw),
    }
}

fn counts_content(line: &[u8]) -> Result<LineContent, LineFlaw>
    ensures { result ≡ content_by Expected.Counts line.now }
{
    match counts_line(line) {
        Ok(counts) => Ok(LineContent::Counts(counts.off, counts.on)),
        Err(flaw) => Err(flaw),
    }
}

fn any_line(left: RemainingMotions, line: &[u8]) -> Result<EntryLine, LineFlaw>
    ensures { result ≡ parsed_motion_or_entry left line.now }
{
    match left {
        RemainingMotions::Parted(setting, _) => setting_motion(setting, line),
        RemainingMotions::Joined(entries) => entry_line(&entries, line),
    }
}

// Returns the content of the line of one of these motions.
fn motion_content(left: RemainingMotions, line: &[u8]) -> Result<LineContent, LineFlaw>
    ensures { result ≡ content_with (motion_content left) (parsed_motion_or_entry left line.now) }
{
    match any_line(left, line) {
        Ok(entry) => Ok(LineContent::Motion(BegunMotion {
            indices: entry.indices,
            pieces_left: entry.pieces,
            afterwards: left.afterwards(entry.indices),
        })),
        Err(flaw) => Err(flaw),
    }
}

fn piece_content(begun: BegunMotion, line: &[u8]) -> Result<LineContent, LineFlaw>
    ensures { result ≡ content_with (LineContent.Piece begun) (parsed_piece line.now) }
{
    match piece_line(line) {
        Ok(piece) => Ok(LineContent::Piece(begun, piece)),
        Err(flaw) => Err(flaw),
    }
}

fn end_content(line: &[u8]) -> Result<LineContent, LineFlaw>
    ensures { result ≡ content_by Expected.End line.now }
{
    match end_line(line) {
        Ok(()) => Ok(LineContent::End),
        Err(flaw) => Err(flaw),
    }
}

impl NextLine {
    /// Returns the first line.
    pub(crate) fn first() -> NextLine
        ensures { result ≡ record { expected = Expected.Header; number = 1 } }
    {
        NextLine {
            expected: Expected::Header,
            number: 1,
        }
    }

    // Returns the content of a line.
    fn line_content(&self, line: &[u8]) -> Result<LineContent, LineFlaw>
        ensures { result ≡ content_by self.now.expected line.now }
    {
        match self.expected {
            Expected::Header => header(line),
            Expected::Setting(setting) => setting_content(setting, line),
            Expected::Counts => counts_content(line),
            Expected::Motion(left) => motion_content(left, line),
            Expected::Piece(begun) => piece_content(begun, line),
            Expected::End => end_content(line),
            Expected::Nothing => Err(LineFlaw::Spelling),
        }
    }

    // Returns why a line is refused.
    fn fault(&self, flaw: LineFlaw) -> CertificateFault
        ensures { result ≡ fault_of self.now.expected self.now.number flaw }
    {
        match (self.expected, flaw) {
            (Expected::Header, _) => CertificateFault::WrongHeader,
            (_, LineFlaw::Spelling) => CertificateFault::BadLine(self.number),
            (_, LineFlaw::Range) => CertificateFault::OutOfRange(self.number),
        }
    }

    /// Returns the fault of the text if the next line is missing or too long.
    pub(crate) fn wrong_line(&self) -> CertificateFault
        ensures { result ≡ wrong_line self.now.expected self.now.number }
    {
        match self.expected {
            Expected::Header => CertificateFault::WrongHeader,
            _ => CertificateFault::BadLine(self.number),
        }
    }

    // Returns the line after one with this content.
    fn afterwards(&self, line_content: &LineContent) -> NextLine
        ensures { result ≡ record {
          expected = after_content line_content.now;
          number = next_number self.now.number;
        } }
    {
        NextLine {
            expected: Expected::after_content(line_content),
            number: self.number.saturating_add(1),
        }
    }

    /// Reads the next line and returns its content. If no line may follow it, the text is refused
    /// at the following line. A refusal changes nothing.
    pub(crate) fn read(&mut self, line: &[u8]) -> Result<LineContent, CertificateFault>
        requires { IsSound self.old.expected self.old.number }
        ensures tells { (next : List ℕ) (left : List (List ℕ)) →
            LineResultIs result (left_from self.old.expected self.old.number (line.now ∷ next ∷ left))
            (left_from self.new.expected self.new.number (next ∷ left)) }
        ensures expected { IfOk result (λ line_content. IsNext self.old.expected line_content ×
            (self.new.expected ≡ after_content line_content)) }
        ensures sound { IsSound self.new.expected self.new.number }
        ensures progress { OnOk result
            (lines_ahead self.new.expected + 1 ≤ lines_ahead self.old.expected) }
        ensures short { OnOk result (length line.now ≤ 256) }
        ensures memory { result ≢ Err CertificateFault.Memory }
        ensures device { result ≢ Err CertificateFault.ReadFailed }
    {
        if line.len() > LINE_BYTES {
            return Err(self.wrong_line());
        }
        match self.line_content(line) {
            Ok(line_content) => {
                let next = self.afterwards(&line_content);
                // Whatever follows is wrong, so the fault is already certain.
                if !next.expected.is_open() {
                    return Err(next.wrong_line());
                }
                *self = next;
                Ok(line_content)
            }
            Err(flaw) => Err(self.fault(flaw)),
        }
    }

    /// Returns whether the text has ended.
    pub(crate) fn has_ended(&self) -> bool
        ensures { IsTrue result ↔ (self.now.expected ≡ Expected.Nothing) }
    {
        matches!(self.expected, Expected::Nothing)
    }
}
