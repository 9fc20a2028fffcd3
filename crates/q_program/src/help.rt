//! What the program says of itself.

/// How the program is called.
pub(crate) const USAGE: &str = "
Usage: qmgr [-s] [-w SECONDS] SPOOL COMMAND [WORD]...
       qmgr --help | --version";

/// What `--version` prints.
pub(crate) const VERSION: &str = "qmgr 0.1";

/// What `--help` prints.
pub(crate) const HELP: &str = "\
qmgr, the queue manager of a mail server

Usage: qmgr [-s] [-w SECONDS] SPOOL COMMAND [WORD]...
       qmgr --help | --version

SPOOL is the folder of the spool. Commands make it where it is missing, and lock it; where another
process has it, they wait for it, at most SECONDS (default 0). With -s each change of a folder is
synced by itself, else many together. queue, json, qshape, status, show, params, route, check and audit
change nothing, and look beside a process that has it. load touches no folder.

Commands:
  submit SENDER RECIPIENT...    take in one message, whose content is standard input; <> is the
                                null sender
  replay                        run the event list of standard input and tell each decision
  drain [-n RESTS]              deliver by SMTP, and tell each decision, until no delivery is in
                                flight; servers are waited for at most RESTS times (0 to
                                1000000000, default 1000000), ten milliseconds at most each time
  listen [-p PORT] [-n COUNT] [-r RESTS]
                                take mail by SMTP at PORT (1 to 65535, default 2525) of 127.0.0.1,
                                over COUNT connections (1 to 1000000, default 1), one behind the
                                other; clients are waited for at most RESTS times (0 to 1000000000,
                                default 1000000), ten milliseconds at most each time
  hold ID|ALL|-                 hold a message back that waits in incoming or deferred, or all; with
                                - the ids are read from standard input, one a line
  release ID|ALL|-              let a message go that was held back, or all, or those of the input
  requeue ID|ALL|-              take a deferred message in anew, or all, or those of the input
  expire ID|-                   give a message up that waits or was held back, or those of the
                                input: its pending recipients fail
  flush DOMAIN                  take in anew the deferred mail with a pending recipient in DOMAIN
  queue                         list the messages in incoming, active, deferred and hold
  json                          the same as JSON, one object a line, as postqueue -j has them
  qshape [-s] [-l] [-b N] [-t MINUTES] [QUEUE]...
                                tell the ages of mail by domain: of recipients, or with -s of
                                senders; N buckets (2 to 20, default 10), the first of so many
                                minutes (1 to 10000, default 5), each twice the one before or with
                                -l as much above it; QUEUE is incoming, active, deferred or hold,
                                by default the first two
  status                        tell figures of the queues in the text format of Prometheus
  show ID                       tell a message: its recipients with what became of each, and its
                                content
  params                        tell every parameter in force, with its line and its default
  route ADDRESS...              tell where the mail to each address goes, and which line of the
                                table says so
  check                         tell what is wrong with the spool and the files of conf
  audit                         judge each line of the trace of standard input: tell whether it is one
                                of a run on an empty spool, by the parameters and the table of SPOOL,
                                and how far preemption delayed each job, or the first line that isn't
                                lawful and the rule that it breaks
  load N                        run a generated load of N mails (1 to 2000) in memory, and tell how
                                many messages, recipients, deliveries and preemptions there were,
                                and how many messages are left

The files conf/params and conf/transport of the spool say the parameters and the transport table.

Exit status: 0 done, 1 wrong words, 2 bad input (the file and its line are named), 3 disk fault,
4 output fault, 5 input fault, 6 damaged spool (the file is named), 7 RESTS were used up, 8 limit
reached, 9 no memory, 10 connection fault, 11 no such message, 12 unreadable file (which is named).
Standard error says why, with the place and the system's words. With 0 it may have warnings, and
behind a drain a line of what it came to.";
