// Of which groups the records of a robots file are, read one after the other.
ghost use Rattle.std.specs.Prelude.{◌≡◌};
ghost use Rattle.std.specs.Str.{str_eq_ignore_ascii_case};
ghost use Rattle.iri_robots.specs.inside.Groups.{has, past, past_agent};

use crate::record::Record;

// Of which groups a run of agents is, and so the rules after it.
#[derive(Clone, Copy)]
pub(crate) struct Groups {
    // Of those that have the crawler's token.
    pub(crate) own: bool,
    // Of those that have `*`.
    pub(crate) any: bool,
}

impl Groups {
    // Of the crawler's own, or of those that have `*`.
    pub(crate) fn has(self, own: bool) -> bool
        ensures { result ≡ has own self }
    {
        if own { self.own } else { self.any }
    }
}

// What the records so far say of the next one.
#[derive(Clone, Copy)]
pub(crate) struct Reading {
    // Some record has the token.
    pub(crate) named: bool,
    // The last record is an agent.
    pub(crate) in_run: bool,
    // The groups of the last run of agents.
    pub(crate) groups: Groups,
}

// An agent is equal to a name without case.
fn is_agent(agent: &str, name: &str) -> bool
    ensures { result ≡ str_eq_ignore_ascii_case agent.now name.now }
{
    agent.eq_ignore_ascii_case(name)
}

// What is said after an agent.
fn past_agent(old: Reading, token: &str, agent: &str) -> Reading
    ensures { result ≡ past_agent token.now agent.now old }
{
    let own = is_agent(agent, token);
    let any = is_agent(agent, "*");
    Reading {
        named: old.named || own,
        in_run: true,
        groups: Groups {
            own: own || (old.in_run && old.groups.own),
            any: any || (old.in_run && old.groups.any),
        },
    }
}

// What is said after one record more.
pub(crate) fn past(old: Reading, token: &str, added: &Record) -> Reading
    ensures { result ≡ past token.now added.now old }
{
    match added {
        Record::UserAgent(agent) => past_agent(old, token, agent.as_str()),
        Record::Judged(_) => Reading {
            named: old.named,
            in_run: false,
            groups: old.groups,
        },
    }
}
