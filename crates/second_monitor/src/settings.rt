// The programs that are served, with their hosts and policies.
use crate::entries::Program;

/// A program with its hosts and its policy.
#[derive(Clone, Copy)]
pub enum Setting {
    Signer,
    OtherSecret,
    Login,
    AllAllowed,
    Ledger,
}

/// All of them.
pub const SETTINGS: [Setting; 5] = [
    Setting::Signer,
    Setting::OtherSecret,
    Setting::Login,
    Setting::AllAllowed,
    Setting::Ledger,
];

impl Setting {
    /// Its name.
    pub fn name(self) -> &'static str {
        match self {
            Setting::Signer => "signer",
            Setting::OtherSecret => "signer, another secret",
            Setting::Login => "login",
            Setting::AllAllowed => "login, all allowed",
            Setting::Ledger => "ledger",
        }
    }

    /// Its program.
    pub fn program(self) -> Program {
        match self {
            Setting::Signer | Setting::OtherSecret => Program::Signer,
            Setting::Login | Setting::AllAllowed => Program::Login,
            Setting::Ledger => Program::Ledger,
        }
    }

    /// What its host `load` gives for 7.
    pub fn secret(self) -> i128 {
        match self {
            Setting::OtherSecret => 4321,
            Setting::Login | Setting::AllAllowed => 30818,
            Setting::Signer | Setting::Ledger => 1234,
        }
    }

    /// The text of its program.
    pub fn text(self) -> &'static str {
        match self.program() {
            Program::Signer => SIGNER,
            Program::Login => LOGIN,
            Program::Ledger => LEDGER,
        }
    }

    /// The text of its host table.
    pub fn hosts(self) -> &'static str {
        match self {
            Setting::Signer => {
                "{\"load\":{\"kind\":\"table\",\"rows\":[[[7],1234],[[8],5]],\"else\":0},\"sign\":{\"kind\":\"table\",\"rows\":[[[1234,5],99]],\"else\":-1},\"put\":{\"kind\":\"line\"}}"
            }
            Setting::OtherSecret => {
                "{\"load\":{\"kind\":\"table\",\"rows\":[[[7],4321],[[8],5]],\"else\":0},\"sign\":{\"kind\":\"table\",\"rows\":[[[4321,5],99]],\"else\":-1},\"put\":{\"kind\":\"line\"}}"
            }
            Setting::Login | Setting::AllAllowed => {
                "{\"load_hash\":{\"kind\":\"table\",\"rows\":[[[7],30818]],\"else\":0},\"next_byte\":{\"kind\":\"input\"},\"audit\":{\"kind\":\"line\"}}"
            }
            Setting::Ledger => {
                "{\"load\":{\"kind\":\"table\",\"rows\":[[[7],1234]],\"else\":5},\"note\":{\"kind\":\"line\"},\"put\":{\"kind\":\"line\"}}"
            }
        }
    }

    /// The text of its policy.
    pub fn policy(self) -> &'static str {
        match self {
            Setting::Signer | Setting::OtherSecret => {
                "from a allow load to a\nfrom a allow sign to a\n"
            }
            Setting::Login => {
                "from start allow load_hash to ready\nfrom ready allow verify at most 3 to ready\n"
            }
            Setting::AllAllowed => "from a allow load_hash to a\nfrom a allow verify to a\n",
            Setting::Ledger => LEDGER_POLICY,
        }
    }

    /// The first state of its policy.
    pub fn first_state(self) -> &'static str {
        match self {
            Setting::Login => "start",
            _ => "a",
        }
    }
}

const SIGNER: &str =
    "__attribute__((priv)) int load(int n);\n__attribute__((priv, declassify)) int sign(__attribute__((priv)) int k, int n);\nvoid put(int v);\nint main(void) { int k; int s; k = load(7); s = sign(k, 5); put(s); return 0; }\n";

const LOGIN: &str =
    "struct login { int user; int tries; int ok; };\n__attribute__((priv)) int load_hash(int user);\nint next_byte(void);\nvoid audit(int user, int tries, int ok);\nstruct login state;\n\nint mix(int h, int c) { return (h * 31 + c) % 65536; }\n\n__attribute__((priv, declassify)) int verify(__attribute__((priv)) int hash,\n                                             const char *word, int n) {\n  int i;\n  int h = 0;\n  for (i = 0; i < n; i++) h = mix(h, word[i]);\n  return h == hash;\n}\n\nint read_line(char *to, int room) {\n  int c;\n  int n = 0;\n  while ((c = next_byte()) != -1 && c != '\\n') {\n    if (n < room) to[n++] = c;\n  }\n  return n;\n}\n\nint main(void) {\n  char name[8];\n  char word[32];\n  int n;\n  int hash;\n  n = read_line(name, 8);\n  state.user = n > 0 ? name[0] - '0' : 0;\n  hash = load_hash(state.user);\n  while (!state.ok) {\n    n = read_line(word, 32);\n    state.tries++;\n    state.ok = verify(hash, word, n);\n    audit(state.user, state.tries, state.ok);\n  }\n  return 0;\n}\n";

const LEDGER: &str =
    "struct acct { int id; __attribute__((priv)) long key; };\n__attribute__((priv)) int load(int n);\n__attribute__((priv)) void note(int n, __attribute__((priv)) long k);\nvoid put(int v);\n__attribute__((priv)) void open(__attribute__((declassify)) struct acct *p) { p->id += 1; p->key = p->id; }\n__attribute__((priv)) void keep(__attribute__((priv)) long *p, int n) { *p = n; }\n__attribute__((priv, declassify)) int same(const struct acct *p, __attribute__((priv)) long k) { return p->key == k; }\n__attribute__((priv)) int tell(int n) { note(n, 1); return 100 / n; }\nint main(void) { struct acct a; long k; int s; a.id = 0; s = load(7); s = tell(2); open(&a); keep(&k, 5); note(1, a.key); put(same(&a, k)); return 0; }\n";

const LEDGER_POLICY: &str =
    "from a allow load arg1 in 0..8 at most 6 to a\nfrom a allow open at most 3 to b\nfrom a allow note arg1 in 1..7 to a\nfrom a allow keep to a\nfrom a allow tell arg1 in 0..5 to b\nfrom b allow tell to a\nfrom b allow same to b\nfrom b allow load to a\nfrom b allow keep arg2 in -5..5 to b\nfrom b allow note to a\nfrom b allow open to a\n";
