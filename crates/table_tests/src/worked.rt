//! Texts of programs.

/// The text of the worked program whose file is at hand.
pub const SMALL_TEXT: &[u8] =
    b"sial small\naoindex m = 1, 2\naoindex l = 1, 2\nmoindex i = 1, 2\ntemp v(m,l)\n\
    temp a(l,i)\ntemp p(m,i)\ntemp q(m,i)\ndistributed t(l,i)\ndistributed r(m,i)\n\
    static one(m,i)\nscalar esum\nscalar e\nscalar s\ncreate t\ncreate r\npardo l, i\n\
    execute compute_integrals a(l,i)\nput t(l,i) = a(l,i)\nendpardo l, i\nsip_barrier\n\
    pardo m, i\np(m,i) = 0\ndo l\nget t(l,i)\nexecute compute_integrals v(m,l)\n\
    q(m,i) = v(m,l) * t(l,i)\np(m,i) += q(m,i)\nenddo l\nput r(m,i) = p(m,i)\n\
    esum += p(m,i) * p(m,i)\nendpardo m, i\nsip_barrier\ncollective e += esum\ndo m\ndo i\n\
    one(m,i) = 1\ns = r(m,i) * one(m,i)\nexecute print_scalar s\nenddo i\nenddo m\n\
    execute print_scalar e\nendsial small\n";

/// Loops, a branch, prints and calls.
pub const EACH_FORM: &[u8] =
    b"sial p\nindex i = 1, n\ntemp t(i)\nscalar s\nproc first\nprint \"n\"\nendproc first\n\
    proc second\ncall first\nendproc second\npardo i\nwhere i > 1\nt(i) = 1\nendpardo i\n\
    do i\nprint \"n\"\nenddo i\nif s == 1\ns = 2\nelse\ncall second\nendif\nendsial p\n";

/// The worked programs.
pub const WORKED: [&[u8]; 14] = [
    b"sial first\naoindex i = 1, 2\nstatic a(i)\nscalar s\ndo i\na(i) = 3\na(i) += a(i)\n\
      s = a(i) * a(i)\nexecute print_scalar s\nenddo i\nendsial first\n",
    b"sial wrap\nscalar x\nx += 2\nexecute print_scalar x\nendsial wrap\n",
    b"sial clash\nindex i = 1, 2\nindex j = 1, 1\ntemp t(j)\ndistributed d(j)\ncreate d\n\
      pardo i\ndo j\nt(j) = 1\nput d(j) = t(j)\nenddo j\nendpardo i\nendsial clash\n",
    b"sial apart\nindex i = 1, 2\ntemp t(i)\ndistributed d(i)\ncreate d\npardo i\nif i == 1\n\
      get d(i)\nelse\nt(i) = 1\nput d(i) += t(i)\nendif\nendpardo i\nendsial apart\n",
    b"sial order\nindex i = 1, 1\ntemp t(i)\ndistributed d(i)\ncreate d\npardo i\nget d(i)\n\
      endpardo i\nsip_barrier\npardo i\nt(i) = 1\nput d(i) += t(i)\nendpardo i\nendsial order\n",
    b"sial part\nindex i = 1, 2\nscalar s\npardo i\ns += 1\nendpardo i\nif s > 0\n\
      print \"yes\"\nendif\nendsial part\n",
    b"sial gone\nindex i = 1, 2\ntemp t(i)\ndistributed d(i)\ncreate d\npardo i\nget d(i)\n\
      t(i) = d(i)\nendpardo i\ndelete d\nendsial gone\n",
    b"sial again\nindex i = 1, 1\ntemp t(i)\ndistributed d(i)\ncreate d\npardo i\nt(i) = 5\n\
      put d(i) = t(i)\nendpardo i\ndelete d\ncreate d\npardo i\nt(i) = 1\nput d(i) += t(i)\n\
      endpardo i\nendsial again\n",
    b"sial twice\nindex i = 1, 1\ntemp t(i)\ndistributed d(i)\ncreate d\ncreate d\n\
      endsial twice\n",
    b"sial chunks\nindex i = 1, 16\npardo i\nendpardo i\nendsial chunks\n",
    b"sial tight\nindex i = 1, 1\ndistributed x(i)\ndistributed y(i)\ndistributed z(i)\n\
      distributed u(i)\nscalar s\ncreate x\ncreate y\ncreate z\ncreate u\ndo i\nget x(i)\n\
      get y(i)\ns = z(i) * u(i)\nenddo i\nexecute print_scalar s\nendsial tight\n",
    b"sial shape\nindex i = 1, 2\nindex j = 1, 2\ndistributed a(i,j)\ndistributed b(i,j)\n\
      temp x(i,j)\ntemp y(i,j)\ntemp z(i,j)\nendsial shape\n",
    b"sial disk\nindex i = 1, 3\ntemp t(i)\nserved v(i)\nscalar s\npardo i\n\
      execute compute_integrals t(i)\nprepare v(i) = t(i)\nendpardo i\nserver_barrier\ndo i\n\
      request v(i) i\nt(i) = 1\ns = t(i) * v(i)\nexecute print_scalar s\nenddo i\nendsial disk\n",
    b"sial big\naoindex m = 1, nao\naoindex n = 1, nao\naoindex l = 1, nao\naoindex s = 1, nao\n\
      moindex i = 1, nmo\nmoindex j = 1, nmo\ntemp v(m,n,l,s)\ntemp a(l,s,i,j)\n\
      temp p(m,n,i,j)\ntemp q(m,n,i,j)\ntemp u(m,n,i,j)\nserved vint(m,n,l,s)\n\
      distributed t(l,s,i,j)\ndistributed r(m,n,i,j)\nscalar esum\nscalar e\ncreate t\n\
      create r\npardo m, n, l, s\nexecute compute_integrals v(m,n,l,s)\n\
      prepare vint(m,n,l,s) = v(m,n,l,s)\nendpardo m, n, l, s\npardo l, s, i, j\n\
      execute compute_integrals a(l,s,i,j)\nput t(l,s,i,j) = a(l,s,i,j)\nendpardo l, s, i, j\n\
      server_barrier\nsip_barrier\npardo m, n, i, j\np(m,n,i,j) = 0.0\ndo l\ndo s\n\
      get t(l,s,i,j)\nrequest vint(m,n,l,s) l\nq(m,n,i,j) = vint(m,n,l,s) * t(l,s,i,j)\n\
      p(m,n,i,j) += q(m,n,i,j)\nenddo s\nenddo l\nput r(m,n,i,j) = p(m,n,i,j)\n\
      u(m,n,i,j) = 1.0\nesum += p(m,n,i,j) * u(m,n,i,j)\nendpardo m, n, i, j\n\
      collective e += esum\nexecute print_scalar e\nendsial big\n",
];
