//! What the program works with, whatever it does.

ghost use Rattle.std.specs.{Prelude.◌≡◌, Option.option_or};
ghost use Rattle.distping_words.specs.Ports.{port_given};

use dist_names::NodeName;
use dist_program::{Addresses, Resolving, lookup_host, variable};
use dist_secret::Cookie;
use dist_talk::NoCookie;
use distping_report::{Dial, LineSink, Listed};
use distping_words::{Choices, Wanted, given_port};
use std::io::IsTerminal;

/// What is needed to probe a node or to take a connection.
#[derive(Clone, Copy)]
pub struct Context<'a, R: Resolving> {
    /// The runtime, for sockets and random bytes.
    pub rt: &'a HostRuntime,
    /// The same runtime, for calls that may wait for the resolver.
    pub resolver: &'a R,
    /// The hosts for which the names that their port mappers know were printed.
    pub listed: &'a Listed,
    /// What the command line asks for.
    pub wanted: &'a Wanted<'a>,
    /// The cookie that is tried, or why there is none.
    pub cookie: Result<&'a Cookie, NoCookie>,
}

// Whether marks have a colour: on a terminal, unless NO_COLOR is set.
fn has_colors(rt: &HostRuntime) -> bool {
    let is_plain = match variable(rt, "NO_COLOR") {
        Ok(Some(text)) => !text.is_empty(),
        Ok(None) => false,
        Err(_) => true,
    };
    !is_plain && rt.stdout().is_terminal()
}

impl<'a, R: Resolving> Context<'a, R> {
    /// Lines on the screen; with `--json` only those of objects.
    pub fn screen(&self) -> LineSink<'static>
        ensures { result.quiet ≡ self.now.wanted.now.choices.json }
    {
        let choices = &self.wanted.choices;
        LineSink::on_screen(self.rt, choices.json).for_probe(choices, has_colors(self.rt))
    }

    /// The addresses of a node's host.
    pub fn addresses(&self, node: &NodeName) -> Addresses {
        let choices = &self.wanted.choices;
        lookup_host(self.resolver, *self.rt, choices.host(node), choices.limit())
    }

    // A dial of a node under this name, by these choices.
    fn dial_by<'d>(
        &'d self,
        choices: Choices<'d>,
        lines: LineSink<'d>,
        own: &'d NodeName,
        node: &'d NodeName,
    ) -> Dial<'d>
        ensures lines { result.lines ≡ lines.entry }
        ensures own { result.own.now ≡ own.now }
        ensures node { result.node.now ≡ node.now }
        ensures choices { result.choices ≡ choices.entry }
        ensures cookie { result.cookie ≡ self.now.cookie }
    {
        Dial {
            rt: self.rt,
            lines,
            listed: self.listed,
            own,
            node,
            cookie: self.cookie,
            choices,
        }
    }

    /// A dial of a node under this name, whose steps are printed to these lines.
    pub fn make_dial<'d>(
        &'d self,
        lines: LineSink<'d>,
        own: &'d NodeName,
        node: &'d NodeName,
    ) -> Dial<'d>
        ensures lines { result.lines ≡ lines.entry }
        ensures own { result.own.now ≡ own.now }
        ensures node { result.node.now ≡ node.now }
        ensures choices { result.choices ≡ record self.now.wanted.now.choices { port = result.choices.port } }
        // Without --port, a word may give the node's port.
        ensures port { result.choices.port ≡ option_or self.now.wanted.now.choices.port (port_given self.now.wanted.now.ports.items node.now) }
        ensures cookie { result.cookie ≡ self.now.cookie }
    {
        let mut choices = self.wanted.choices;
        choices.port = choices.port.or(given_port(&self.wanted.ports, node));
        self.dial_by(choices, lines, own, node)
    }
}
