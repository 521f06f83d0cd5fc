//! The state of a client between two rows, and how the client answers one row. The client's asker
//! computes the replies.

ghost use Rattle.std.specs.Prelude.{◌≡◌, ◌+◌, ◌<◌, ◌≤◌, Ok, IfOk, IfErr, IsTrue, IsFalse, length};
ghost use Rattle.cspf_ero.specs.ReplyLine.{IsReply};
ghost use Rattle.cspf_model.specs.Outcome.{answer_of};
ghost use Rattle.cspf_publish.specs.AskerStates.{known_of};
ghost use Rattle.cspf_publish.specs.KnownBatches.{AreFirstOf};
ghost use Rattle.cspf_client.specs.ClientRows.{IsClientRowAnswered, IsClientRowUnanswered, IsQuestionAnswered, IsQuestionUnanswered, IsReadAnswered, IsReadUnanswered, IsRefusedQuestion, IsRefusedRow, IsRefusalMissing, IsRequestAnswered, IsRequestUnanswered};
ghost use Rattle.cspf_questions.specs.QuestionLines.{IsQuestionReply, MayFail};
ghost use Rattle.cspf_disjoint.specs.declared.error.PairError.{PairError};
ghost use Rattle.cspf_client.specs.ErrorNames.{fault_of_answer};
ghost use Rattle.cspf_questions.specs.QuestionRows.{read_fields};
ghost use Rattle.csv.specs.Records.{fields_of};

use crate::entrance::Entrance;
use crate::error::RowFault;
use cspf_db::Table;
use cspf_ero::reply_line;
use cspf_model::Request;
use cspf_publish::{Answer, AskError, Asker, Known, RowOfReader, SeenSteps, Told};
use cspf_questions::{Kinds, Question, QuestionError, ReadFields, refused_question};
use cspf_rows::{Row, RowError};
use cspf_stream::{Answering, refused_row};
use csv::ByteRecord;
use std::alloc::Global;
use std::marker::Model;
use std::sync::Wait;
use std::sync::ledger::Ledger;

/// The state of a client between two rows of its requests.
#[derive(Drop)]
pub struct Session {
    /// The number of the client.
    client: u64,
    asker: Asker,
    /// The steps of the journal, up to the step in which the client last read the count of
    /// published batches.
    steps: SeenSteps,
    /// How many rows of the client were refused.
    refused: u64,
}

impl Model for Session {
    ghost use Rattle.cspf_client.specs.SessionStates.{SessionState};

    ghost Value = { SessionState };

    ghost use Rattle.std.specs.Prelude.{◌≡◌};
    ghost use Rattle.cspf_publish.specs.AskerStates.{known_of};

    ghost view = { λ s. record {
      client = s.client;
      known = known_of s.asker;
      steps = s.steps;
      refused = s.refused;
    } };

    ghost invariant = { λ s. s.steps.source ≡ s.asker.source };
}

/// The reply line of an answer.
fn line_of(alloc: Global, answer: Answer) -> Result<Vec<u8>, AskError>
    ensures line { IfOk result (λ line.
        IsReply answer.id answer.version (answer_of answer.outcome) line.items) }
    ensures memory { IfErr result (λ why. why ≡ AskError.Memory) }
{
    Ok(reply_line(alloc, answer.id, answer.version, &answer.outcome)?)
}

/// Reads a record as a question of the kinds `K`, or as a row of a database.
fn read_fields<K: Kinds>(alloc: Global, fields: &ByteRecord) -> Result<ReadFields, AskError>
    ensures read { IfOk result (λ read. read ≡ read_fields K.kinds (fields_of fields.now)) }
    ensures memory { IfErr result (λ why. why ≡ AskError.Memory) }
{
    Ok(ReadFields::of(alloc, K::value(), fields)?)
}

/// The line that answers a question in the table's database, whose version is `version`.
fn question_line(
    alloc: Global,
    question: &Question,
    table: Table,
    version: u32,
) -> Result<Vec<u8>, RowFault>
    ensures line { IfOk result (λ line. IsQuestionReply table version question.now line.items) }
    ensures fault { IfErr result (λ fault. (why : PairError) × MayFail question.now why
        × (fault ≡ fault_of_answer why)) }
{
    match question.reply(alloc, table, version) {
        Ok(line) => Ok(line),
        Err(why) => Err(RowFault::of(why)),
    }
}

impl Session {
    /// The state of the client with this number before its first row.
    pub(crate) fn new(asker: Asker, client: u64) -> Session
        ensures state { result ≡ record {
          client = client;
          known = known_of asker;
          steps = result.steps;
          refused = 0;
        } }
        ensures steps { result.steps.source ≡ asker.source }
    {
        let steps = asker.steps();
        Session {
            client,
            asker,
            steps,
            refused: 0,
        }
    }

    /// The state before the first row of the next session. The client knows the same batches as
    /// before, and has seen the same steps.
    pub(crate) fn reopened(self) -> Session
        ensures { result ≡ record self { refused = 0 } }
    {
        let mut session = self;
        session.refused = 0;
        session
    }

    /// The steps of the journal that the client has seen. In such a step, a batch is recorded or
    /// counted as published, or the count of published batches is read.
    pub(crate) fn steps(&self) -> &SeenSteps
        ensures { result.now ≡ self.now.steps }
    {
        &self.steps
    }

    /// The batches that the client knows.
    pub(crate) fn known(&self) -> &Known
        ensures { result.now ≡ self.now.known }
    {
        self.asker.known()
    }

    /// How many rows of the client were refused.
    pub(crate) fn refused(&self) -> u64
        ensures { result ≡ self.now.refused }
    {
        self.refused
    }

    /// Learns of the published batches `told`. Returns true if the client then knows exactly these
    /// batches. Returns false if the client already knew more batches.
    pub(crate) fn meet(&mut self, told: Told) -> bool
        requires { told.source ≡ self.old.known.source }
        ensures others { self.new ≡ record self.old { known = self.new.known } }
        ensures known { AreFirstOf self.new.known self.old.known }
        ensures met { IsTrue result → self.new.known ≡ told }
        ensures ahead { IsFalse result → (self.new.known ≡ self.old.known)
            × (length told.batches < length self.old.known.batches) }
    {
        let published = told.version();
        self.asker.meet(told) == published
    }

    /// Reads the count of published batches, in a step of the journal that has the number of the
    /// row, `place`. Then answers the request, and returns the line of the reply.
    fn ask(&mut self, alloc: Global, place: u64, request: &Request) -> Result<Vec<u8>, AskError>
        ensures answered { IfOk result (λ line.
            IsRequestAnswered place request.now self.old line.items self.new) }
        ensures failed { IfErr result (λ why. IsRequestUnanswered place why self.old self.new) }
        ensures refused { self.new.refused ≡ self.old.refused }
    {
        let row = RowOfReader {
            reader: self.client,
            place,
        };
        let _count = self.asker.catch_up(&mut self.steps, row);
        let answer = match self.asker.ask(alloc, request) {
            Ok(answer) => answer,
            Err(why) => return Err(why),
        };
        line_of(alloc, answer)
    }

    /// As `ask`, but answers a question, from a copy of the published table.
    fn question(
        &mut self,
        alloc: Global,
        place: u64,
        question: &Question,
    ) -> Result<Vec<u8>, RowFault>
        ensures answered { IfOk result (λ line.
            IsQuestionAnswered place question.now self.old line.items self.new) }
        ensures failed { IfErr result (λ fault.
            IsQuestionUnanswered place question.now fault self.old self.new) }
        ensures refused { self.new.refused ≡ self.old.refused }
    {
        let row = RowOfReader {
            reader: self.client,
            place,
        };
        let _read = self.asker.catch_up(&mut self.steps, row);
        let table = match self.asker.table(alloc) {
            Ok(table) => table,
            Err(why) => return Err(RowFault::Ask(why)),
        };
        question_line(alloc, question, table, self.asker.seen())
    }

    /// As `ask`. If the row was already there before the client's last line was written, first waits
    /// for a permit, and gives it back before the line is returned.
    fn ask_in_turn<R: Wait, L: Ledger, K>(
        &mut self,
        entrance: &Entrance<'_, R, L, K>,
        alloc: Global,
        place: u64,
        request: &Request,
    ) -> Result<Vec<u8>, AskError>
        ensures answered { IfOk result (λ line.
            IsRequestAnswered place request.now self.old line.items self.new) }
        ensures failed { IfErr result (λ why. IsRequestUnanswered place why self.old self.new) }
        ensures refused { self.new.refused ≡ self.old.refused }
    {
        if entrance.was_read.replace(false) {
            return self.ask(alloc, place, request);
        }
        let permit = entrance.permits.take();
        let line = self.ask(alloc, place, request);
        entrance.permits.give_back(permit);
        line
    }

    /// As `ask_in_turn`, but answers a question.
    fn question_in_turn<R: Wait, L: Ledger, K>(
        &mut self,
        entrance: &Entrance<'_, R, L, K>,
        alloc: Global,
        place: u64,
        question: &Question,
    ) -> Result<Vec<u8>, RowFault>
        ensures answered { IfOk result (λ line.
            IsQuestionAnswered place question.now self.old line.items self.new) }
        ensures failed { IfErr result (λ fault.
            IsQuestionUnanswered place question.now fault self.old self.new) }
        ensures refused { self.new.refused ≡ self.old.refused }
    {
        if entrance.was_read.replace(false) {
            return self.question(alloc, place, question);
        }
        let permit = entrance.permits.take();
        let line = self.question(alloc, place, question);
        entrance.permits.give_back(permit);
        line
    }

    /// Refuses row `place`, the row of a question, and returns the line of the refusal.
    fn refuse_question(
        &mut self,
        alloc: Global,
        place: u64,
        why: QuestionError,
    ) -> Result<Vec<u8>, AskError>
        requires { self.old.refused < place }
        ensures answered { IfOk result (λ line.
            IsRefusedQuestion place why self.old line.items self.new) }
        ensures failed { IfErr result (λ fault. IsRefusalMissing fault self.old self.new) }
        ensures refused { self.new.refused ≤ self.old.refused + 1 }
    {
        let line = refused_question(alloc, place, why)?;
        self.refused = self.refused + 1;
        Ok(line)
    }

    /// Refuses row `place`, and returns the line of the refusal.
    fn refuse(&mut self, alloc: Global, place: u64, why: RowError) -> Result<Vec<u8>, AskError>
        requires { self.old.refused < place }
        ensures answered { IfOk result (λ line.
            IsRefusedRow place why self.old line.items self.new) }
        ensures failed { IfErr result (λ fault. IsRefusalMissing fault self.old self.new) }
        ensures refused { self.new.refused ≤ self.old.refused + 1 }
    {
        let line = refused_row(alloc, place, why)?;
        self.refused += 1;
        Ok(line)
    }

    /// Answers row `place`, which was read in this way.
    fn answer_fields<R: Wait, L: Ledger, K>(
        &mut self,
        entrance: &Entrance<'_, R, L, K>,
        alloc: Global,
        place: u64,
        read: &ReadFields,
    ) -> Result<Vec<u8>, RowFault>
        requires { self.old.refused < place }
        ensures answered { IfOk result (λ line.
            IsReadAnswered place self.old read.now line.items self.new) }
        ensures failed { IfErr result (λ fault.
            IsReadUnanswered fault place self.old read.now self.new) }
        ensures refused { self.new.refused ≤ self.old.refused + 1 }
    {
        match read {
            ReadFields::Row(row) => match self.answer_row(entrance, alloc, place, *row) {
                Ok(line) => Ok(line),
                Err(why) => Err(RowFault::Ask(why)),
            },
            ReadFields::Question(question) => {
                self.question_in_turn(entrance, alloc, place, question)
            }
            ReadFields::Refused(why) => match self.refuse_question(alloc, place, *why) {
                Ok(line) => Ok(line),
                Err(fault) => Err(RowFault::Ask(fault)),
            },
        }
    }

    /// Answers row `place`, a row of a database or a record that is no such row.
    fn answer_row<R: Wait, L: Ledger, K>(
        &mut self,
        entrance: &Entrance<'_, R, L, K>,
        alloc: Global,
        place: u64,
        row: Result<Row, RowError>,
    ) -> Result<Vec<u8>, AskError>
        requires { self.old.refused < place }
        ensures answered { IfOk result (λ line.
            IsClientRowAnswered place self.old row line.items self.new) }
        ensures failed { IfErr result (λ fault.
            IsClientRowUnanswered fault place self.old row self.new) }
        ensures refused { self.new.refused ≤ self.old.refused + 1 }
    {
        match row {
            Ok(row) => self.answer_read(entrance, alloc, place, &row),
            Err(why) => self.refuse(alloc, place, why),
        }
    }

    /// Answers row `place`, whose fields were read as `row`.
    fn answer_read<R: Wait, L: Ledger, K>(
        &mut self,
        entrance: &Entrance<'_, R, L, K>,
        alloc: Global,
        place: u64,
        row: &Row,
    ) -> Result<Vec<u8>, AskError>
        requires { self.old.refused < place }
        ensures answered { IfOk result (λ line.
            IsClientRowAnswered place self.old (Ok row.now) line.items self.new) }
        ensures failed { IfErr result (λ fault.
            IsClientRowUnanswered fault place self.old (Ok row.now) self.new) }
        ensures refused { self.new.refused ≤ self.old.refused + 1 }
    {
        match row {
            Row::Ask(request) => self.ask_in_turn(entrance, alloc, place, request),
            Row::Put(_) => self.refuse(alloc, place, RowError::Kind),
            Row::Remove { .. } => self.refuse(alloc, place, RowError::Kind),
            Row::Node { .. } => self.refuse(alloc, place, RowError::Kind),
            Row::End { .. } => self.refuse(alloc, place, RowError::Kind),
        }
    }
}

impl<'a, R: Wait, L: Ledger, K: Kinds> Answering<Entrance<'a, R, L, K>> for Session {
    type Fault = RowFault;

    ghost use Rattle.std.specs.Prelude.{◌<◌};
    ghost use Rattle.cspf_client.specs.ClientRows.{IsClientAnswered, IsClientUnanswered};

    ghost answers = { IsClientAnswered K.kinds };

    ghost fails = { IsClientUnanswered K.kinds };

    ghost may_stand = { λ place s. s.refused < place };

    fn answer(
        &mut self,
        entrance: &Entrance<'a, R, L, K>,
        alloc: Global,
        place: u64,
        fields: &ByteRecord,
    ) -> Result<Vec<u8>, RowFault> {
        let read = match read_fields::<K>(alloc, fields) {
            Ok(read) => read,
            Err(why) => return Err(RowFault::Ask(why)),
        };
        self.answer_fields(entrance, alloc, place, &read)
    }
}
