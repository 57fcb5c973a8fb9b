//! A row of tokens, read from the left.
ghost use Rattle.std.specs.Prelude.{◌≡◌, [], ◌∷◌, ◌++◌, OnOk, IfSome, IfNone};
ghost use Rattle.flow_parse.specs.declared.form.Form.{Form};
ghost use Rattle.flow_parse.specs.Forms.{IsForm};
ghost use Rattle.flow_parse.specs.Reading.{Gives, word_at, arrow_at, close_at, close_bracket_at, begins_open, begins_open_bracket, begins_automatic_input, begins_automatic_output, parenthesized_at, bracketed_at, mention_at, port_at, tail, end_at, output_at, input_at, receiver_at, header_at, subnet_at, initial_at, in_port_at, out_port_at, connection_at, named_at, form_after, form_at, form_of};

use crate::form::{EndMention, Form, Mention, PortMention};
use crate::same::is;
use crate::token::Token;
use crate::value::{FIRST_VERSION, SECOND_VERSION, THIRD_VERSION};
use flow_items::Text;
use std::alloc::{AllocError, Global};
use std::collections::VecDeque;
use std::marker::Model;

/// The tokens of a line that are left.
#[derive(Drop)]
pub struct Row {
    rest: VecDeque<Token>,
}

impl Model for Row {
    ghost use Rattle.std.specs.Prelude.{List};
    ghost use Rattle.flow_parse.specs.declared.token.Token.{Token};

    ghost Value = { List Token };

    ghost view = { λ r. r.rest.items };
}

impl Row {
    pub fn new(alloc: Global) -> Row
        ensures { result ≡ [] }
    {
        Row {
            rest: VecDeque::new(alloc),
        }
    }

    pub fn push(&mut self, token: Token) -> Result<(), AllocError>
        ensures { OnOk result (self.new ≡ self.old ++ token ∷ []) }
    {
        self.rest.push_back(token)?;
        Ok(())
    }

    fn word(&mut self) -> Option<Text>
        ensures { Gives result self.new (word_at self.old) }
    {
        match self.rest.pop_front() {
            Some(Token::Word(word)) => Some(word),
            _ => None,
        }
    }

    fn arrow(&mut self) -> Option<()>
        ensures { Gives result self.new (arrow_at self.old) }
    {
        match self.rest.pop_front() {
            Some(Token::Arrow) => Some(()),
            _ => None,
        }
    }

    fn close(&mut self) -> Option<()>
        ensures { Gives result self.new (close_at self.old) }
    {
        match self.rest.pop_front() {
            Some(Token::Close) => Some(()),
            _ => None,
        }
    }

    fn close_bracket(&mut self) -> Option<()>
        ensures { Gives result self.new (close_bracket_at self.old) }
    {
        match self.rest.pop_front() {
            Some(Token::CloseBracket) => Some(()),
            _ => None,
        }
    }

    fn begins_open(&self) -> bool
        ensures { result ≡ begins_open self.now }
    {
        matches!(self.rest.front(), Some(Token::Open))
    }

    fn begins_open_bracket(&self) -> bool
        ensures { result ≡ begins_open_bracket self.now }
    {
        matches!(self.rest.front(), Some(Token::OpenBracket))
    }

    fn begins_automatic_input(&self) -> bool
        ensures { result ≡ begins_automatic_input self.now }
    {
        matches!(self.rest.front(), Some(Token::AutomaticInput))
    }

    fn begins_automatic_output(&self) -> bool
        ensures { result ≡ begins_automatic_output self.now }
    {
        matches!(self.rest.front(), Some(Token::AutomaticOutput))
    }

    fn skip(&mut self)
        ensures { self.new ≡ tail self.old }
    {
        let _ = self.rest.pop_front();
    }

    #[tactic(auto, unfolding(crate::specs::Reading::parenthesized_at))]
    fn parenthesized(&mut self) -> Option<Option<Text>>
        ensures { Gives result self.new (parenthesized_at self.old) }
    {
        if !self.begins_open() {
            return Some(None);
        }
        self.skip();
        let word = self.word()?;
        self.close()?;
        Some(Some(word))
    }

    #[tactic(auto, unfolding(crate::specs::Reading::bracketed_at))]
    fn bracketed(&mut self) -> Option<Option<Text>>
        ensures { Gives result self.new (bracketed_at self.old) }
    {
        if !self.begins_open_bracket() {
            return Some(None);
        }
        self.skip();
        let word = self.word()?;
        self.close_bracket()?;
        Some(Some(word))
    }

    #[tactic(auto, unfolding(crate::specs::Reading::mention_at))]
    fn mention(&mut self) -> Option<Mention>
        ensures { Gives result self.new (mention_at self.old) }
    {
        let name = self.word()?;
        let kind = self.parenthesized()?;
        Some(Mention { name, kind })
    }

    #[tactic(auto, unfolding(crate::specs::Reading::port_at))]
    fn port(&mut self) -> Option<PortMention>
        ensures { Gives result self.new (port_at self.old) }
    {
        let name = self.word()?;
        let element = self.bracketed()?;
        Some(PortMention { name, element })
    }

    /// The automatic port that the row begins with, or else a port.
    fn end(&mut self, automatic: bool) -> Option<EndMention>
        ensures { Gives result self.new (end_at automatic self.old) }
    {
        if automatic {
            self.skip();
            return Some(EndMention::Automatic);
        }
        let port = self.port()?;
        Some(EndMention::Port(port))
    }

    #[tactic(auto, unfolding(crate::specs::Reading::output_at))]
    fn output(&mut self) -> Option<EndMention>
        ensures { Gives result self.new (output_at self.old) }
    {
        let automatic = self.begins_automatic_output();
        self.end(automatic)
    }

    #[tactic(auto, unfolding(crate::specs::Reading::input_at))]
    fn input(&mut self) -> Option<EndMention>
        ensures { Gives result self.new (input_at self.old) }
    {
        let automatic = self.begins_automatic_input();
        self.end(automatic)
    }

    #[tactic(auto, unfolding(crate::specs::Reading::receiver_at))]
    fn receiver(&mut self) -> Option<(PortMention, Mention)>
        ensures { Gives result self.new (receiver_at self.old) }
    {
        let into = self.port()?;
        let to = self.mention()?;
        Some((into, to))
    }

    #[tactic(auto, unfolding(crate::specs::Reading::header_at))]
    fn header(&mut self) -> Option<Form>
        ensures { Gives result self.new (header_at self.old) }
    {
        let version = self.word()?;
        if is(&version, b"1") {
            return Some(Form::Header {
                version: FIRST_VERSION,
            });
        }
        if is(&version, b"2") {
            return Some(Form::Header {
                version: SECOND_VERSION,
            });
        }
        if is(&version, b"3") {
            Some(Form::Header {
                version: THIRD_VERSION,
            })
        } else {
            None
        }
    }

    #[tactic(auto, unfolding(crate::specs::Reading::subnet_at))]
    fn subnet(&mut self) -> Option<Form>
        ensures { Gives result self.new (subnet_at self.old) }
    {
        let name = self.word()?;
        Some(Form::Subnet { name })
    }

    #[tactic(auto, unfolding(crate::specs::Reading::initial_at))]
    fn initial(&mut self, text: Text) -> Option<Form>
        ensures { Gives result self.new (initial_at text self.old) }
    {
        self.arrow()?;
        let (into, to) = self.receiver()?;
        Some(Form::Initial { text, into, to })
    }

    #[tactic(auto, unfolding(crate::specs::Reading::in_port_at))]
    fn in_port(&mut self) -> Option<Form>
        ensures { Gives result self.new (in_port_at self.old) }
    {
        let outer = self.word()?;
        self.arrow()?;
        let (into, to) = self.receiver()?;
        Some(Form::InPort { outer, into, to })
    }

    #[tactic(auto, unfolding(crate::specs::Reading::out_port_at))]
    fn out_port(&mut self) -> Option<Form>
        ensures { Gives result self.new (out_port_at self.old) }
    {
        let from = self.mention()?;
        let out = self.port()?;
        self.arrow()?;
        let outer = self.word()?;
        Some(Form::OutPort { from, out, outer })
    }

    #[tactic(auto, unfolding(crate::specs::Reading::connection_at))]
    fn connection(&mut self, from: Mention) -> Option<Form>
        ensures { Gives result self.new (connection_at from self.old) }
    {
        let out = self.output()?;
        self.arrow()?;
        let capacity = self.parenthesized()?;
        let into = self.input()?;
        let to = self.mention()?;
        Some(Form::Connection {
            from,
            out,
            capacity,
            into,
            to,
        })
    }

    /// A process or a connection, behind the name that it begins with.
    #[tactic(auto, unfolding(crate::specs::Reading::named_at))]
    fn named(&mut self, name: Text) -> Option<Form>
        ensures { Gives result self.new (named_at name self.old) }
    {
        let kind = self.parenthesized()?;
        if !self.rest.is_empty() {
            return self.connection(Mention { name, kind });
        }
        match kind {
            Some(kind) => Some(Form::Process { name, kind }),
            None => None,
        }
    }

    #[tactic(auto, unfolding(crate::specs::Reading::form_after))]
    fn form_after(&mut self, word: Text) -> Option<Form>
        ensures { Gives result self.new (form_after word self.old) }
    {
        if is(&word, b"flow") {
            return self.header();
        }
        if is(&word, b"subnet") {
            return self.subnet();
        }
        if is(&word, b"end") {
            return Some(Form::End);
        }
        if is(&word, b"inport") {
            return self.in_port();
        }
        if is(&word, b"outport") {
            return self.out_port();
        }
        self.named(word)
    }

    fn any_form(&mut self) -> Option<Form>
        ensures { Gives result self.new (form_at self.old) }
    {
        match self.rest.pop_front() {
            Some(Token::Word(word)) => self.form_after(word),
            Some(Token::Quoted(text)) => self.initial(text),
            _ => None,
        }
    }

    /// The form that the row is, if it is one.
    pub fn form(self) -> Option<Form>
        ensures some { IfSome result (λ form. IsForm self form) }
        ensures none { IfNone result ((form : Form) → IsForm self form → ⊥) }
    {
        self.form_read()
    }

    fn form_read(mut self) -> Option<Form>
        ensures { result ≡ form_of self }
    {
        let form = self.any_form()?;
        if self.rest.is_empty() {
            Some(form)
        } else {
            None
        }
    }
}
