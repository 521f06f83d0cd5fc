//! Answers the rows of a server's book. Each accepted row is kept and published.

ghost use Rattle.std.specs.Prelude.{◌≡◌};

use crate::shown::Shown;
use cspf_book_run::BookRows;
use cspf_serve::{Counted, Publishing};
use cspf_stream::{Answering, Ending};
use csv::ByteRecord;
use std::alloc::{AllocError, Global};
use std::io::Write;
use std::sync::Wait;

/// The state of a server's book between two rows.
pub struct BookUpdates<J, K> {
    pub(crate) rows: BookRows<Shown<J, K>>,
}

impl<J: Write, K: Write, R: Wait> Answering<R> for BookUpdates<J, K> {
    type Fault = AllocError;

    ghost use Rattle.cspf_book_serve.specs.BookUpdates.{IsUpdateAnswer, IsUpdateAnswerLost, IsUpdateBefore};

    ghost answers = { IsUpdateAnswer J.contents K.contents };

    ghost fails = { λ fault. IsUpdateAnswerLost J.contents K.contents };

    ghost may_stand = { IsUpdateBefore };

    fn answer(
        &mut self,
        rt: &R,
        alloc: Global,
        place: u64,
        fields: &ByteRecord,
    ) -> Result<Vec<u8>, AllocError> {
        self.rows.answer_or_refuse(rt, alloc, place, fields)
    }
}

impl<J: Write, K: Write, T: Wait> Publishing<T> for BookUpdates<J, K> {
    type Journal = J;

    type Rest = K;

    ghost use Rattle.cspf_book_serve.specs.BookUpdates.{book_updates_spec, books_have_one_source};

    ghost spec = { book_updates_spec J.contents K.contents };

    fn last_line(&self, alloc: Global) -> Result<Vec<u8>, AllocError> {
        self.rows.last_line(alloc, false)
    }

    fn has_refused(&self) -> bool {
        self.rows.has_refused() || self.rows.has_open()
    }

    fn end(self) -> (Counted<J>, K) {
        let BookUpdates { rows } = self;
        let Shown {
            counted,
            keep,
            stopped: _,
        } = rows.into_keeping();
        (counted, keep)
    }

    ghost one_source = { books_have_one_source J.contents K.contents };
}
