//! The document that `compare --json` writes.

ghost use Rattle.std.specs.Prelude.{◌≡◌, ◌≤◌, IfErr, IfOk};
ghost use Rattle.noise_json.specs.Documents.{document_text};
ghost use Rattle.noise_json.specs.Json.{members_in};
ghost use Rattle.noise_tool.specs.Answers.{IsOutput, answer_value};
ghost use Rattle.noise_tool.specs.ComparedDocuments.{IsCompareDocument, IsDocumentAnswer, compared_document};
ghost use Rattle.noise_tool.specs.Testing.{EndsTest};

use crate::answers::Answer;
use crate::comparison::{Comparison, compare_named, finding_status, uncompared_line, unread_line};
use crate::testing::FilesByName;
use noise_documents::{named_facts, refused_facts};
use noise_json::{Object, document, document_text};
use noise_lines::Fault;
use noise_words::{Compared, Documented};
use std::alloc::{AllocError, Global};

/// The document of a command.
pub fn document_answer<F: FilesByName>(
    alloc: Global,
    asked: &Documented,
    files: &F,
) -> Result<Answer, Fault>
    ensures made { IfOk result (λ answer. IsDocumentAnswer asked.now (F.bytes_at files.now) (F.unreadable files.now)
        (answer_value answer)) }
    ensures fault { IfErr result EndsTest }
{
    match asked {
        Documented::Compare(names) => compared_answer(alloc, names, files),
    }
}

// Compares a log with a vector file as `compare_log` does: the document of what is found, with the same status. At
// status 2 the document has the line that says what is wrong; at status 3 that line comes to the error output.
fn compared_answer<F: FilesByName>(
    alloc: Global,
    names: &Compared,
    files: &F,
) -> Result<Answer, Fault>
    ensures made { IfOk result (λ answer. IsCompareDocument names.now (F.bytes_at files.now) (F.unreadable files.now)
        (answer_value answer)) }
    ensures fault { IfErr result EndsTest }
{
    match compare_named(alloc, names, files)? {
        Comparison::Made(report, facts) => {
            let status = finding_status(report.finding);
            Ok(written(alloc, names, status, &report.text, facts)?)
        }
        Comparison::Wrong(why) => {
            let line = uncompared_line(alloc, names, why)?;
            Ok(written(alloc, names, 2, &line, refused_facts(alloc)?)?)
        }
        Comparison::Unread(which) => Ok(Answer::refusal(
            alloc,
            unread_line(alloc, names, which)?,
            3,
        )),
    }
}

// The document with these lines and facts.
fn written(
    alloc: Global,
    names: &Compared,
    status: u8,
    lines: &[u8],
    facts: Object,
) -> Result<Answer, AllocError>
    requires few { status ≤ 3 }
    ensures out { IfOk result (λ answer. (answer_value answer).out
        ≡ document_text (compared_document names.now status lines.now (members_in facts))) }
    ensures alone { IfOk result (λ answer. IsOutput (answer_value answer) status) }
{
    let facts = named_facts(alloc, names.log.as_str(), names.file.as_str(), facts)?;
    let json = document(alloc, "compare", status, lines, facts)?;
    Ok(Answer::output(alloc, document_text(alloc, &json)?, status))
}
