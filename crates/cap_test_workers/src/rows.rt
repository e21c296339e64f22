//! Workloads with what they print.

// A session captures an insert.
const INSERT: (&str, &str) = (
    "create t kv\nsession\nattach 1 t\ncommit insert t (1,'x')\nchangeset 1\n",
    "ok version 1\nsession 1\nok\nok version 2\nchangeset 5402010074001200010000000000000001030178\n",
);

// A session attaches the tables that its filter accepts, in the order of their first change.
const FILTER: (&str, &str) = (
    "create a kv\ncreate b kv\ncreate audit kv\nsession\nattachall 1\nfilter 1 not is audit\ncommit insert b (1,'x') ; insert audit (1,'x') ; insert a (1,'x')\nfilter 1 nothing\ncommit insert a (2,'y') ; insert b (2,'y')\nchangeset 1\n",
    "ok version 1\nok version 2\nok version 3\nsession 1\nok\nok\nok version 4\nok\nok version 5\nchangeset 5402010062001200010000000000000001030178120001000000000000000203017954020100610012000100000000000000010301781200010000000000000002030179\n",
);

// The third operation of a transaction is refused.
const DUPLICATE: (&str, &str) = (
    "create t kv\nsession\nattach 1 t\ncommit insert t (1,'x') ; insert t (2,'y') ; insert t (1,'z')\nscan t\nisempty 1\n",
    "ok version 1\nsession 1\nok\nrefused at 2: E5 Duplicate\nrows 0\ntrue\n",
);

// A table is compared with a saved one.
const DIFF: (&str, &str) = (
    "create t kv\ncommit insert t (1,'a')\ncommit insert t (2,'b')\ncommit insert t (3,'c')\nsave old\ncommit delete t key(1)\ncommit update t key(3) set 1 = 'd'\ncommit insert t (4,'e')\nsession\ndiff 1 old t\nchangeset 1\n",
    "ok version 1\nok version 2\nok version 3\nok version 4\nok\nok version 5\nok version 6\nok version 7\nsession 1\nok\nchangeset 54020100740009000100000000000000010301611700010000000000000003030163000301641200010000000000000004030165\n",
);

// Two lines of workers.
const WORKERS: (&str, &str) = (
    "create t kv\nsession\nattach 1 t\n@0 commit insert t (1,'a')\n@1 commit insert t (2,'b')\nchangeset 1\n",
    "ok version 1\nsession 1\nok\nok version 2\nok version 3\nchangeset 54020100740012000100000000000000010301611200010000000000000002030162\n",
);

// A changeset is applied, and its conflict replaced.
const APPLY: (&str, &str) = (
    "create t kv\ncommit insert t (1,'x')\nsession\nattach 1 t\napply x'5402010074001200010000000000000001030179' omit omit replace\nchangeset 1\n",
    "ok version 1\nok version 2\nsession 1\nok\nok version 3, applied 1, omitted 0, skipped 0\nchangeset 540201007400170001000000000000000103017800030179\n",
);

// Transactions over several lines, of which one is rolled back, one is committed, and one is refused.
const TRANSACTIONS: (&str, &str) = (
    "create t kv\nbegin\ninsert t (1,'x')\nrollback\nbegin\ninsert t (1,'y')\nsavepoint\nupdate t key(1) set 1 = 'z'\nrollback to 0\nget t key(1)\nend\nbegin\nget t key(1)\ndelete t key(1)\ncommit update t key(1) set 1 = 'w'\nend\nend\n",
    "ok version 1\nok\nok\nok\nok\nok\nsavepoint 0\nok\nok\nrow (1,'y')\nok version 2\nok\nrow (1,'y')\nok\nok version 3\nrefused: E11 Stale base 2 now 3 item 1\nrefused: E21 NoTransaction\n",
);

/// Workloads with their replies, each of which is one line, for runs whose memory is refused.
pub(crate) const WORKLOADS: &[(&str, &str)] = &[INSERT, FILTER, DUPLICATE, DIFF, WORKERS, APPLY];

/// The same for runs on one thread alone.
pub(crate) const WORKLOADS_ALONE: &[(&str, &str)] = &[TRANSACTIONS];

/// Workloads of one worker with their replies. On a worker's thread no transaction can be open.
pub(crate) const ROWS: &[(&str, &str)] = &[
    (
        "create t kv\nbegin\ninsert t (1,'x')\nsavepoint\nget t key(1)\nrollback to 0\nrollback\nend\nscan t\n",
        "ok version 1\nrefused: E21 NoTransaction\nrefused: E21 NoTransaction\nrefused: E21 NoTransaction\nno row\nrefused: E21 NoTransaction\nrefused: E21 NoTransaction\nrefused: E21 NoTransaction\nrows 0\n",
    ),
    (
        "create t kv\nsession\nattach 1 t\nisempty 1\nchangeset 1\n",
        "ok version 1\nsession 1\nok\ntrue\nchangeset -\n",
    ),
    (
        "create t kv\ncommit insert t (1,'x')\nsession\nattach 1 t\ncommit update t key(1) set 1 = 'y'\nchangeset 1\npatchset 1\n",
        "ok version 1\nok version 2\nsession 1\nok\nok version 3\nchangeset 540201007400170001000000000000000103017800030179\npatchset 5002010074001700010000000000000001030179\n",
    ),
    (
        "create t kv\ncommit insert t (1,'x')\nsession\nattach 1 t\ncommit update t key(1) set 1 = 'y'\nchangeset 1\n",
        "ok version 1\nok version 2\nsession 1\nok\nok version 3\nchangeset 540201007400170001000000000000000103017800030179\n",
    ),
    (
        "create t kv\ncommit insert t (1,'x')\nsession\nattach 1 t\ncommit delete t key(1)\nchangeset 1\npatchset 1\n",
        "ok version 1\nok version 2\nsession 1\nok\nok version 3\nchangeset 5402010074000900010000000000000001030178\npatchset 5002010074000900010000000000000001\n",
    ),
    (
        "create t kv\ncommit insert t (1,'x')\nsession\nattach 1 t\ncommit delete t key(1)\nchangeset 1\n",
        "ok version 1\nok version 2\nsession 1\nok\nok version 3\nchangeset 5402010074000900010000000000000001030178\n",
    ),
    (
        "create t kv\nsession\nattach 1 t\ncommit insert t (1,'x')\nenable 1 off\ncommit delete t key(1)\nchangeset 1\nisempty 1\n",
        "ok version 1\nsession 1\nok\nok version 2\noff\nok version 3\nchangeset -\nfalse\n",
    ),
    (
        "create u kvv\ncommit insert u (1,'a','b')\nsession\nattach 1 u\ncommit update u key(1) set 1 = 'c'\nenable 1 off\ncommit update u key(1) set 2 = 'd'\nchangeset 1\n",
        "ok version 1\nok version 2\nsession 1\nok\nok version 3\noff\nok version 4\nchangeset 54030100007500170001000000000000000103016103016200030163030164\n",
    ),
    (
        "create t kv\ncommit insert t (1,'x')\nsession\nattach 1 t\ncommit delete t key(1) ; insert t (1,'y')\nchangeset 1\n",
        "ok version 1\nok version 2\nsession 1\nok\nok version 3\nchangeset 540201007400170001000000000000000103017800030179\n",
    ),
    (
        "create t kv\ncommit insert t (1,'x')\nsession\nattach 1 t\ncommit delete t key(1) ; insert t (1,'x')\nchangeset 1\nisempty 1\n",
        "ok version 1\nok version 2\nsession 1\nok\nok version 3\nchangeset -\nfalse\n",
    ),
    (
        "create t kv\ncommit insert t (1,'x')\nsession\nattach 1 t\ncommit update t key(1) set 0 = 2\nchangeset 1\n",
        "ok version 1\nok version 2\nsession 1\nok\nok version 3\nchangeset 54020100740009000100000000000000010301781200010000000000000002030178\n",
    ),
    (
        "create t kv\nsession\nattach 1 t\ncommit insert t (null,'n')\ncommit update t loose 1 set 0 = 5\nchangeset 1\n",
        "ok version 1\nsession 1\nok\nok version 2\nok version 3\nchangeset 540201007400120001000000000000000503016e\n",
    ),
    (
        "create c kkv\nsession\nattach 1 c\ncommit insert c (1,null,'q')\nchangeset 1\nisempty 1\n",
        "ok version 1\nsession 1\nok\nok version 2\nchangeset -\ntrue\n",
    ),
    (
        "create t kv\ncommit insert t (1,'x')\nsession\nattach 1 t\ncommit update t key(1) set 1 = 'y'\nindirect 1 on\ncommit update t key(1) set 1 = 'z'\nchangeset 1\n",
        "ok version 1\nok version 2\nsession 1\nok\nok version 3\non\nok version 4\nchangeset 54020100740017000100000000000000010301780003017a\n",
    ),
    (
        "create t kv\ncommit insert t (1,'x')\nsession\nattach 1 t\nindirect 1 on\ncommit update t key(1) set 1 = 'y'\ncommit update t key(1) set 1 = 'z'\nchangeset 1\n",
        "ok version 1\nok version 2\nsession 1\nok\non\nok version 3\nok version 4\nchangeset 54020100740017010100000000000000010301780003017a\n",
    ),
    (
        "create t kv\ncommit insert t (1,'x')\nsession\nattach 1 t\ncommit cascade update t key(1) set 1 = 'z'\nchangeset 1\n",
        "ok version 1\nok version 2\nsession 1\nok\nok version 3\nchangeset 54020100740017010100000000000000010301780003017a\n",
    ),
    (
        "create t kv\nsession\nattach 1 t\ncommit insert t (1,'x') ; insert t (2,'y') ; insert t (1,'z')\nscan t\n",
        "ok version 1\nsession 1\nok\nrefused at 2: E5 Duplicate\nrows 0\n",
    ),
    (
        "create t kv\ncommit insert t (1,'q')\napply x'540201007400170001000000000000000103017800030179' omit omit omit\nget t key(1)\n",
        "ok version 1\nok version 2\nok version 3, applied 0, omitted 1, skipped 0\nrow (1,'q')\n",
    ),
    (
        "create t kv\ncommit insert t (1,'q')\napply x'540201007400170001000000000000000103017800030179' abort omit omit\nget t key(1)\n",
        "ok version 1\nok version 2\nrefused at 0: E15 Aborted\nrow (1,'q')\n",
    ),
    (
        "create t kv\napply x'5402010074000900010000000000000001030178' omit replace omit\n",
        "ok version 1\nrefused at 0: E16 Misuse\n",
    ),
    (
        "apply x'5402010074001200010000000000000001030178' omit omit omit\n",
        "ok version 1, applied 0, omitted 0, skipped 1\n",
    ),
    (
        "create t kv\ncommit insert t (1,'a')\ncommit insert t (2,'b')\ncommit insert t (3,'c')\nsave old\ncommit delete t key(1)\ncommit update t key(3) set 1 = 'd'\ncommit insert t (4,'e')\nsession\ndiff 1 old t\nchangeset 1\ncreate w kv\ndiff 1 old w\ndiff 1 old none\ndiff 1 nodb t\ndiff 1 nodb none\n",
        "ok version 1\nok version 2\nok version 3\nok version 4\nok\nok version 5\nok version 6\nok version 7\nsession 1\nok\nchangeset 54020100740009000100000000000000010301611700010000000000000003030163000301641200010000000000000004030165\nok version 8\nrefused: E14 Incompatible\nok\nrefused: E19 NoDatabase\nok\n",
    ),
    (
        "create t kv\ncommit insert t (1,'x')\nsession\nattach 1 t\ncommit update t key(1) set 1 = 'y' ; update t key(1) set 1 = 'x'\nchangeset 1\nenable 1 off\ncommit update t key(1) set 1 = 'z'\nchangeset 1\n",
        "ok version 1\nok version 2\nsession 1\nok\nok version 3\nchangeset -\noff\nok version 4\nchangeset 54020100740017000100000000000000010301780003017a\n",
    ),
    (
        "create t kv\ncommit insert t (1,'x')\nsession\nattach 1 t\ncommit update t key(1) set 1 = 'y' ; update t key(1) set 1 = 'x'\nchangeset 1\n",
        "ok version 1\nok version 2\nsession 1\nok\nok version 3\nchangeset -\n",
    ),
    (
        "create t kv\ncommitat 1 insert t (1,'x')\ncommitat 1 insert t (2,'y')\n",
        "ok version 1\nok version 2\nrefused: E11 Stale base 1 now 2\n",
    ),
    (
        "create t kv\ncommit insert t (1,'x')\nsession\nattach 1 t\ncommit insert t (1,'y')\nchangeset 1\n",
        "ok version 1\nok version 2\nsession 1\nok\nrefused at 0: E5 Duplicate\nchangeset -\n",
    ),
    (
        "create v vv\nsession\nattach 1 v\ncommit insert v (1,'x')\nchangeset 1\n",
        "ok version 1\nsession 1\nok\nok version 2\nchangeset -\n",
    ),
    (
        "create t kv\nsession\nattach 1 t\ndrop 1\nattach 1 t\nsession\nisempty 2\n",
        "ok version 1\nsession 1\nok\nok\nrefused: E18 NoSession\nsession 2\ntrue\n",
    ),
    (
        "create t kv\nsession\nfilter 1 nothing\nattachall 1\ncommit insert t (1,'x')\nchangeset 1\nisempty 1\n",
        "ok version 1\nsession 1\nok\nok\nok version 2\nchangeset -\ntrue\n",
    ),
    (
        "create t kv\nsession\nattach 1 t\nattach 1 later\nenable 1 ask\nindirect 1 ask\ncreate later kv\ncommit insert later (1,'x')\nchangeset 1\n",
        "ok version 1\nsession 1\nok\nok\non\noff\nok version 2\nok version 3\nchangeset 540201006c61746572001200010000000000000001030178\n",
    ),
    (
        "create t kv\nsession\nattach 1 t\napply x'5402010074001200010000000000000001030178' omit omit omit\nchangeset 1\n",
        "ok version 1\nsession 1\nok\nok version 2, applied 1, omitted 0, skipped 0\nchangeset 5402010074001200010000000000000001030178\n",
    ),
    (
        "create t kv\ncommit insert t (1,'x')\nsession\nattach 1 t\napply x'5402010074001200010000000000000001030179' omit omit replace\nchangeset 1\n",
        "ok version 1\nok version 2\nsession 1\nok\nok version 3, applied 1, omitted 0, skipped 0\nchangeset 540201007400170001000000000000000103017800030179\n",
    ),
    (
        "create t kvv\napply x'5402010074001200010000000000000001030178' abort abort abort\nscan t\n",
        "ok version 1\nok version 2, applied 1, omitted 0, skipped 0\nrows 1\n(1,'x',null)\n",
    ),
    (
        "create t vkv\napply x'5402010074001200010000000000000001030178' abort abort abort\n",
        "ok version 1\nok version 2, applied 0, omitted 0, skipped 1\n",
    ),
    (
        "create t kv\ncommit insert t (1,'x')\nsession\nattach 1 t\napply x'5402010074001200010000000000000001030179' omit omit abort\nscan t\n",
        "ok version 1\nok version 2\nsession 1\nok\nrefused at 0: E15 Aborted\nrows 1\n(1,'x')\n",
    ),
    (
        "create t kv\ncommit insert t (1,'a')\ncommit insert t (2,'b')\ncommit insert t (3,'c')\nsave old\ncommit delete t key(1)\ncommit update t key(3) set 1 = 'd'\ncommit insert t (4,'e')\nsession\ndiff 1 old t\nchangeset 1\ndiff 1 old t\nchangeset 1\n",
        "ok version 1\nok version 2\nok version 3\nok version 4\nok\nok version 5\nok version 6\nok version 7\nsession 1\nok\nchangeset 54020100740009000100000000000000010301611700010000000000000003030163000301641200010000000000000004030165\nok\nchangeset 54020100740009000100000000000000010301611700010000000000000003030163000301641200010000000000000004030165\n",
    ),
    (
        "create t kv\ncommit insert t (1,'a')\ncommit insert t (2,'b')\ncommit insert t (3,'c')\nsave old\ncommit delete t key(1)\ncommit update t key(3) set 1 = 'd'\ncommit insert t (4,'e')\nsession\nenable 1 off\nindirect 1 on\ndiff 1 old t\nchangeset 1\n",
        "ok version 1\nok version 2\nok version 3\nok version 4\nok\nok version 5\nok version 6\nok version 7\nsession 1\noff\non\nok\nchangeset 54020100740009010100000000000000010301611701010000000000000003030163000301641201010000000000000004030165\n",
    ),
    (
        "save b0\nsave b1\nsave b2\nsave b3\nsave b4\nsave b5\nsave b6\nsave b7\nsave b8\nsave b9\nsave b10\nsave b11\nsave b12\nsave b13\nsave b14\nsave b15\nsave b16\nsave b15\n",
        "ok\nok\nok\nok\nok\nok\nok\nok\nok\nok\nok\nok\nok\nok\nok\nok\nrefused: E10 TooMany\nok\n",
    ),
    (
        "session\nfilter 1 not not not not not not not not not not not not not not not not not not not not not not not not not not not not not not not all\n",
        "session 1\nok\n",
    ),
    (
        "create nnnnnnnnnnnnnnnnnnnnnnnnnnnnnnnnnnnnnnnnnnnnnnnnnnnnnnnnnnnnnnnnnnnnnnnnnnnnnnnnnnnnnnnnnnnnnnnnnnnnnnnnnnnnnnnnnnnnnnnnnnnnnnnnnnnnnnnnnnnnnnnnnnnnnnnnnnnnnnnnnnnnnnnnnnnnnnnnnnnnnnnnnnnnnnnnnnnnnnnnnnnnnnnnnnnnnnnnnnnnnnnnnnnnnnnnnnnnnnnnnnnnnnnnnnnnnnn kv\n",
        "ok version 1\n",
    ),
    (
        "create t kv\ncommit insert t (1,'x')\nsession\nattach 1 t\ncommit update t key(1) set 1 = 'y'\nrestart 1\nisempty 1\ncommit update t key(1) set 1 = 'z'\nrestart 1\nchangeset 1\n",
        "ok version 1\nok version 2\nsession 1\nok\nok version 3\nchangeset 540201007400170001000000000000000103017800030179\ntrue\nok version 4\nchangeset 54020100740017000100000000000000010301790003017a\nchangeset -\n",
    ),
    (
        "create a kv\ncreate b kv\nsession\nattachall 1\ncommit insert b (1,'x') ; insert a (1,'x')\nrestart 1\ncommit insert a (2,'y') ; insert b (2,'y')\nchangeset 1\n",
        "ok version 1\nok version 2\nsession 1\nok\nok version 3\nchangeset 54020100620012000100000000000000010301785402010061001200010000000000000001030178\nok version 4\nchangeset 54020100620012000100000000000000020301795402010061001200010000000000000002030179\n",
    ),
    (
        "create t kv\nsession\nattach 1 t\nrestart 2\n",
        "ok version 1\nsession 1\nok\nrefused: E18 NoSession\n",
    ),
    (
        "create t kv\ncommit insert t (1,'x')\napply x'540201007400170001000000000000000103017800030179' abort abort abort\napply x'54020100740017000100000000000000010301790003017a' abort abort abort\nget t key(1)\n",
        "ok version 1\nok version 2\nok version 3, applied 1, omitted 0, skipped 0\nok version 4, applied 1, omitted 0, skipped 0\nrow (1,'z')\n",
    ),
];
