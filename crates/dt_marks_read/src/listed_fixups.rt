//! The cells that wait for labels, as an object lists them.

ghost use Rattle.std.specs.Prelude.{◌≡◌, ◌∷◌, [], List};
ghost use Rattle.std.specs.Option.{MatchOption};
ghost use Rattle.std.specs.Iterator.{YieldsFirstBy, item_count};
ghost use Rattle.dt_marks_read.specs.FixupsLeft.{cell_in, told_next};
ghost use Rattle.dt_marks_read.specs.LabelViews.{labels_left};
ghost use Rattle.dt_marks_read.specs.ListedViews.{fixup_view};

use crate::listed::{ListedCell, told_cell};
use dt_names::{Fault, FaultKind};
use dt_overlay_texts::{Texts, texts};
use dt_read::{Blob, Props};
use std::marker::Model;

/// What is left of a label's texts, and the labels behind it.
#[derive(Drop)]
struct Labels<'a> {
    blob: &'a Blob<'a>,
    rest: Option<Props<'a>>,
    label: &'a [u8],
    texts: Texts<'a>,
}

impl<'a> Labels<'a> {
    /// Answers the cell of a text of the label. Nothing comes behind a fault.
    fn tell(&mut self, text: &'a [u8]) -> Result<(&'a [u8], ListedCell<'a>), Fault>
        ensures { told_next self.old.label.now (cell_in self.old.blob.now text.now) (labels_left self.old) ≡ fixup_view result ∷ labels_left self.new }
    {
        match told_cell(self.blob, text) {
            Some(cell) => Ok((self.label, cell)),
            None => {
                self.rest = None;
                self.texts = Texts::none();
                Err(Fault::of(FaultKind::BadFixup))
            }
        }
    }

    /// Goes on to the next label, and answers the cell of its first text.
    fn next_label(&mut self) -> Option<Result<(&'a [u8], ListedCell<'a>), Fault>>
        requires { self.old.texts ≡ [] }
        ensures { MatchOption result ((labels_left self.old ≡ []) × (labels_left self.new ≡ []))
            (λ told. labels_left self.old ≡ fixup_view told ∷ labels_left self.new) }
    {
        let mut rest = self.rest.take()?;
        let (label, value) = rest.next()?;
        let Some(mut texts) = texts(value) else {
            return Some(Err(Fault::of(FaultKind::BadFixup)));
        };
        let text = texts.next()?;
        self.rest = Some(rest);
        self.label = label;
        self.texts = texts;
        Some(self.tell(text))
    }

    fn next(&mut self) -> Option<Result<(&'a [u8], ListedCell<'a>), Fault>>
        ensures { MatchOption result ((labels_left self.old ≡ []) × (labels_left self.new ≡ []))
            (λ told. labels_left self.old ≡ fixup_view told ∷ labels_left self.new) }
    {
        match self.texts.next() {
            Some(text) => Some(self.tell(text)),
            None => self.next_label(),
        }
    }
}

/// The cells of an object that wait for labels, each with its label, in the order in which they are listed. It is seen as those
/// that are left; where the list is off, `BadFixup` comes, and nothing behind it.
#[derive(Drop)]
pub struct Fixups<'a> {
    labels: Labels<'a>,
}

impl<'a> Model for Fixups<'a> {
    ghost use Rattle.std.specs.Prelude.{List};
    ghost use Rattle.dt_marks_read.specs.LabelViews.{labels_left};
    ghost use Rattle.dt_marks_read.specs.Listed.{Fixup};

    ghost Value = { List Fixup };

    ghost view = { λ f. labels_left f.labels };
}

impl<'a> Fixups<'a> {
    ghost use Rattle.dt_marks_read.specs.FixupsLeft.{fixups_left};

    /// Those of some labels.
    pub(crate) fn new(blob: &'a Blob<'a>, rest: Option<Props<'a>>) -> Fixups<'a>
        ensures { result ≡ fixups_left blob.now rest.entry [] [] }
    {
        Fixups {
            labels: Labels {
                blob,
                rest,
                label: b"".as_slice(),
                texts: Texts::none(),
            },
        }
    }
}

impl<'a> Iterator for Fixups<'a> {
    type Item = Result<(&'a [u8], ListedCell<'a>), Fault>;

    ghost next_gives = { YieldsFirstBy fixup_view (λ s. s) };

    ghost remaining = { item_count (λ s. s) };

    fn next(&mut self) -> Option<Result<(&'a [u8], ListedCell<'a>), Fault>> {
        self.labels.next()
    }
}
