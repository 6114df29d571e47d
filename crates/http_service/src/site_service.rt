//! A site as an HTTP service.
ghost use Rattle.std.specs.Prelude.{◌≡◌, ◌≤◌, []};
ghost use Rattle.std.specs.Vec.{vec_capacity};
ghost use Rattle.http_service.specs.LogLines.{unread_line};

use crate::handlers::{answer, answer_with_line};
use crate::log_line::put_unread_line;
use http::StatusCode;
use http_replies::Site;
use http_streams::CommitFailed;
use http_streams::service::{Answers, Service};
use json_words::Scratch;
use std::alloc::Global;
use std::marker::Model;

/// A borrowed site that answers HTTP requests, each by at most one step.
#[derive(Drop)]
pub struct SiteService<'a> {
    pub(crate) alloc: Global,
    // memory for parsed bodies, reused because new memory would be zeroed whole
    pub(crate) kept: &'a mut Scratch,
    pub(crate) site: &'a mut Site,
}

impl Answers for SiteService<'_> {
    ghost use Rattle.http_service.specs.RequestReplies.{answers_over};

    ghost answers = { answers_over };
}

/// A site, which theorems on streams see only by its view in contracts. No value of this type is created.
#[derive(Drop)]
pub struct ViewedSite {
    site: Site,
}

impl Model for ViewedSite {
    ghost use Rattle.http_replies.specs.site.SiteViews.{SiteView};
    ghost use Rattle.http_replies.specs.site.contracts.site.Site as row;

    ghost Value = { SiteView };

    ghost coded = { row.the_row.coded };

    ghost view = { λ a. a.site };

    ghost invariant = { λ _. Unit {0} };
}

impl Answers for ViewedSite {
    ghost use Rattle.http_service.specs.RequestReplies.{answers, IsAlike};

    ghost answers = { answers };

    ghost same = { IsAlike };
}

impl Service for SiteService<'_> {
    fn call(
        &mut self,
        method: &[u8],
        target: &[u8],
        body: &[u8],
        text: &mut Vec<u8>,
        _line: &mut Vec<u8>,
    ) -> StatusCode {
        answer(self.alloc, self.kept, self.site, method, target, body, text)
    }

    fn put_refusal_line(_status: StatusCode, line: &mut Vec<u8>)
        requires empty { line.old.items ≡ [] }
        ensures line { line.new.items ≡ [] }
        ensures kept { vec_capacity line.old ≤ vec_capacity line.new }
    {
        let _ = line;
    }

    fn commit(&mut self) -> Result<(), CommitFailed> {
        Ok(())
    }
}

/// A site that answers HTTP requests, and makes the line of each for a log.
#[derive(Drop)]
pub struct LoggedService<'a> {
    pub(crate) service: SiteService<'a>,
}

impl Answers for LoggedService<'_> {
    ghost use Rattle.http_service.specs.RequestReplies.{answers_logged};

    ghost answers = { answers_logged };
}

impl Service for LoggedService<'_> {
    ghost use Rattle.http_service.specs.LogLines.{IsLogLine, unread_line};

    ghost lines = { IsLogLine };

    ghost refusal_line = { unread_line };

    // `MOST_UNREAD_LINE`, an upper bound of the bytes of a line without method and target
    ghost line_room = { 64 };

    fn call(
        &mut self,
        method: &[u8],
        target: &[u8],
        body: &[u8],
        text: &mut Vec<u8>,
        line: &mut Vec<u8>,
    ) -> StatusCode {
        let service = &mut self.service;
        answer_with_line(
            service.alloc,
            service.kept,
            service.site,
            method,
            target,
            body,
            text,
            line,
        )
    }

    fn put_refusal_line(status: StatusCode, line: &mut Vec<u8>)
        requires empty { line.old.items ≡ [] }
        requires room { 64 ≤ vec_capacity line.old }
        ensures line { line.new.items ≡ unread_line status }
        ensures kept { vec_capacity line.old ≤ vec_capacity line.new }
    {
        put_unread_line(line, status)
    }

    fn commit(&mut self) -> Result<(), CommitFailed> {
        self.service.commit()
    }
}
