use crate::message::{Said, request};
use editor::{Draft, EditorAnswer, EditorFault, answer_text, fault_text, take};
use http_in::Request;
use http_out::Status;
use pg_text::Failure;
use site_core::{SoloPort, solo};
use site_core_tests::{Unsound, Word, opened};
use site_words::Port;
use std::alloc::{AllocError, Global};

/// An editor's connection: its draft, and the site.
#[derive(Drop)]
pub struct Editing {
    pub draft: Draft,
    pub port: SoloPort<Word>,
}

impl Editing {
    /// An editor with an empty draft over a new site without files, whose journal weighs at most
    /// `limit`.
    pub fn open(alloc: Global, limit: u64) -> Result<Self, Failure<Unsound>> {
        let site = opened(alloc, limit, 1)?;
        if !site.at_rest() {
            return Err(Failure::Fault(Unsound));
        }
        Ok(Editing {
            draft: Draft::new(alloc),
            port: solo(site),
        })
    }

    /// Adds to the lines what each message is answered: its status and lines.
    pub fn tell(
        &mut self,
        alloc: Global,
        lines: &mut String,
        said: &[Said<'_>],
    ) -> Result<(), AllocError> {
        for one in said {
            let line = self.answered(alloc, one)?;
            lines.push_str(line.as_str())?;
        }
        Ok(())
    }

    fn answered(&mut self, alloc: Global, said: &Said<'_>) -> Result<String, AllocError> {
        let request = request(alloc, said)?;
        status_line(alloc, &self.taken(alloc, &request))
    }

    /// What a request is answered.
    pub fn taken(
        &mut self,
        alloc: Global,
        request: &Request,
    ) -> Result<EditorAnswer, Failure<EditorFault>> {
        self.port.law();
        take(alloc, &mut self.draft, request, &mut self.port)
    }
}

/// The status and the lines of an answer.
pub fn status_line(
    alloc: Global,
    answer: &Result<EditorAnswer, Failure<EditorFault>>,
) -> Result<String, AllocError> {
    match answer {
        Ok(answer) => line(alloc, Status::Ok, &answer_text(alloc, answer)?),
        Err(Failure::Fault(fault)) => line(alloc, fault.status(), &fault_text(alloc, *fault)?),
        Err(Failure::NoMemory) => String::from_str(alloc, "no memory\n"),
    }
}

fn line(alloc: Global, status: Status, text: &[u8]) -> Result<String, AllocError> {
    let status = status.as_str();
    let text = str::from_utf8(text).unwrap_or("no text");
    format!(in alloc; "{status}: {text}\n")
}
