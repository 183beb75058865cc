// Whole runs of the example folders, with the outputs and the refusals that stand beside them. `.ci/examples` writes this
// file, and the gate compares it.
use crate::runs::{Engine, Wanted, check_run, held, padded, put};
use nq_edge::HeldInputs;
use nq_model::List;
use std::alloc::Global;
use std::test::Fail;

const COMPANY_COLLEAGUES: &str =
    r#"# A self-join: each person with those of the same department who earn less.
for (e <- table employees)
[(name = e.name,
  below = for (f <- table employees) where (f.dept == e.dept && f.salary < e.salary) [f.name])]
"#;

const COMPANY_DATA_CONTACTS_CSV: &str = r#"dept,name,client
Product,Pam,false
Product,Pat,true
Research,Rob,false
Research,Roy,false
Sales,Sam,false
Sales,Sid,false
Sales,Sue,true
"#;

const COMPANY_DATA_DEPARTMENTS_CSV: &str = r#"name
Product
Quality
Research
Sales
"#;

const COMPANY_DATA_EMPLOYEES_CSV: &str = r#"dept,name,salary
Product,Alex,20000
Product,Bert,900
Research,Cora,50000
Research,Drew,60000
Sales,Erik,2000000
Sales,Fred,700
Sales,Gina,100000
"#;

const COMPANY_DATA_TASKS_CSV: &str = r#"employee,task
Alex,build
Bert,build
Cora,abstract
Cora,build
Cora,enthuse
Drew,abstract
Drew,enthuse
Erik,call
Erik,enthuse
Fred,call
Gina,call
Gina,dissemble
"#;

const COMPANY_IDLE: &str =
    r#"# Emptiness: departments in which nobody can abstract, those without people among them.
for (d <- table departments)
where (empty(
  for (e <- table employees) for (t <- table tasks)
  where (e.dept == d.name && t.employee == e.name && t.task == 'abstract') [e.name]))
[d.name]
"#;

const COMPANY_JSON_CONTACTS_JSON: &str = r#"[
 {"dept": "Product", "name": "Pam", "client": false},
 {"dept": "Product", "name": "Pat", "client": true},
 {"dept": "Research", "name": "Rob", "client": false},
 {"dept": "Research", "name": "Roy", "client": false},
 {"dept": "Sales", "name": "Sam", "client": false},
 {"dept": "Sales", "name": "Sid", "client": false},
 {"dept": "Sales", "name": "Sue", "client": true}
]
"#;

const COMPANY_JSON_DEPARTMENTS_JSON: &str = r#"[
 {"name": "Product"},
 {"name": "Quality"},
 {"name": "Research"},
 {"name": "Sales"}
]
"#;

const COMPANY_JSON_EMPLOYEES_JSON: &str = r#"[
 {"dept": "Product", "name": "Alex", "salary": 20000},
 {"dept": "Product", "name": "Bert", "salary": 900},
 {"dept": "Research", "name": "Cora", "salary": 50000},
 {"dept": "Research", "name": "Drew", "salary": 60000},
 {"dept": "Sales", "name": "Erik", "salary": 2000000},
 {"dept": "Sales", "name": "Fred", "salary": 700},
 {"dept": "Sales", "name": "Gina", "salary": 100000}
]
"#;

const COMPANY_JSON_TASKS_JSON: &str = r#"[
 {"employee": "Alex", "task": "build"},
 {"employee": "Bert", "task": "build"},
 {"employee": "Cora", "task": "abstract"},
 {"employee": "Cora", "task": "build"},
 {"employee": "Cora", "task": "enthuse"},
 {"employee": "Drew", "task": "abstract"},
 {"employee": "Drew", "task": "enthuse"},
 {"employee": "Erik", "task": "call"},
 {"employee": "Erik", "task": "enthuse"},
 {"employee": "Fred", "task": "call"},
 {"employee": "Gina", "task": "call"},
 {"employee": "Gina", "task": "dissemble"}
]
"#;

const COMPANY_KNOWN: &str =
    r#"# A mistake: the clients that each department knows, where `||` stands for `&&`. `nq lineage` shows which rows slipped in.
for (d <- table departments)
[(department = d.name,
  known = for (c <- table contacts) where (c.dept == d.name || c.client) [c.name])]
"#;

const COMPANY_ORG: &str = r#"# The people of a company, what they do, and whom they know.
table departments (name: text, key (name));
table employees (dept: text, name: text, salary: int, key (name));
table tasks (employee: text, task: text);
table contacts (dept: text, name: text, client: bool);
"#;

const COMPANY_OUTLIERS: &str =
    r#"# Functions that take functions: people at either end, by any tests.
let earning = fun (test: int -> bool) ->
  for (e <- table employees) where (test(e.salary)) [e.name];
let both = fun (low: int -> bool) -> fun (high: int -> bool) ->
  [(poor = earning(low), rich = earning(high))];
both(fun (n: int) -> n < 1000)(fun (n: int) -> n > 1000000)
"#;

const COMPANY_PEOPLE: &str =
    r#"# A union: employees and contacts of each department under one label.
for (d <- table departments)
[(department = d.name,
  people = (for (e <- table employees) where (e.dept == d.name) [(kind = 'employee', name = e.name)])
    ++ (for (c <- table contacts) where (c.dept == d.name)
        [(kind = if c.client then 'client' else 'contact', name = c.name)]))]
"#;

const COMPANY_RICH: &str = r#"# A filter: who earns more than 50000.
for (e <- table employees) where (e.salary > 50000) [(name = e.name, salary = e.salary)]
"#;

const COMPANY_STAFF: &str =
    r#"# Three levels: each department with its people, and each of those with their tasks.
let tasksOf = fun (person: text) ->
  for (t <- table tasks) where (t.employee == person) [t.task];
for (d <- table departments)
[(department = d.name,
  people = for (e <- table employees) where (e.dept == d.name)
    [(name = e.name, tasks = tasksOf(e.name))])]
"#;

// The runs in examples/company.
const COMPANY: [Wanted; 9] = [
    Wanted {
        words: &["run", "org", "colleagues", "data"],
        room: 2000,
        status: 0,
        out: r#"{(below = {}, name = 'Bert'), (below = {}, name = 'Cora'), (below = {}, name = 'Fred'), (below = {'Bert'}, name = 'Alex'), (below = {'Cora'}, name = 'Drew'), (below = {'Fred'}, name = 'Gina'), (below = {'Fred', 'Gina'}, name = 'Erik')}
"#,
        note: "",
    },
    Wanted {
        words: &["run", "org", "idle", "data"],
        room: 2000,
        status: 0,
        out: r#"{'Product', 'Quality', 'Sales'}
"#,
        note: "",
    },
    Wanted {
        words: &["run", "org", "outliers", "data"],
        room: 2000,
        status: 0,
        out: r#"{(poor = {'Bert', 'Fred'}, rich = {'Erik'})}
"#,
        note: "",
    },
    Wanted {
        words: &["run", "org", "people", "data"],
        room: 2000,
        status: 0,
        out: r#"{(department = 'Product', people = {(kind = 'client', name = 'Pat'), (kind = 'contact', name = 'Pam'), (kind = 'employee', name = 'Alex'), (kind = 'employee', name = 'Bert')}), (department = 'Quality', people = {}), (department = 'Research', people = {(kind = 'contact', name = 'Rob'), (kind = 'contact', name = 'Roy'), (kind = 'employee', name = 'Cora'), (kind = 'employee', name = 'Drew')}), (department = 'Sales', people = {(kind = 'client', name = 'Sue'), (kind = 'contact', name = 'Sam'), (kind = 'contact', name = 'Sid'), (kind = 'employee', name = 'Erik'), (kind = 'employee', name = 'Fred'), (kind = 'employee', name = 'Gina')})}
"#,
        note: "",
    },
    Wanted {
        words: &["run", "org", "rich", "data"],
        room: 2000,
        status: 0,
        out: r#"{(name = 'Drew', salary = 60000), (name = 'Erik', salary = 2000000), (name = 'Gina', salary = 100000)}
"#,
        note: "",
    },
    Wanted {
        words: &["run", "org", "staff", "data"],
        room: 2000,
        status: 0,
        out: r#"{(department = 'Product', people = {(name = 'Alex', tasks = {'build'}), (name = 'Bert', tasks = {'build'})}), (department = 'Quality', people = {}), (department = 'Research', people = {(name = 'Cora', tasks = {'abstract', 'build', 'enthuse'}), (name = 'Drew', tasks = {'abstract', 'enthuse'})}), (department = 'Sales', people = {(name = 'Erik', tasks = {'call', 'enthuse'}), (name = 'Fred', tasks = {'call'}), (name = 'Gina', tasks = {'call', 'dissemble'})})}
"#,
        note: "",
    },
    Wanted {
        words: &["lineage", "org", "known", "data"],
        room: 2000,
        status: 0,
        out: r#"{(department = 'Product', known = {'Pam' @ [contacts 1], 'Pat' @ [contacts 2], 'Sue' @ [contacts 7]}) @ [departments 1], (department = 'Quality', known = {'Pat' @ [contacts 2], 'Sue' @ [contacts 7]}) @ [departments 2], (department = 'Research', known = {'Pat' @ [contacts 2], 'Rob' @ [contacts 3], 'Roy' @ [contacts 4], 'Sue' @ [contacts 7]}) @ [departments 3], (department = 'Sales', known = {'Pat' @ [contacts 2], 'Sam' @ [contacts 5], 'Sid' @ [contacts 6], 'Sue' @ [contacts 7]}) @ [departments 4]}
"#,
        note: "",
    },
    Wanted {
        words: &["run", "json", "org", "outliers", "data"],
        room: 2000,
        status: 0,
        out: r#"[{"poor":["Bert","Fred"],"rich":["Erik"]}]
"#,
        note: "",
    },
    Wanted {
        words: &["run", "json", "tables", "org", "outliers", "json"],
        room: 2000,
        status: 0,
        out: r#"[{"poor":["Bert","Fred"],"rich":["Erik"]}]
"#,
        note: "",
    },
];

// The files of examples/company.
fn files_of_company(alloc: Global) -> Result<HeldInputs, Fail> {
    let mut files = List::new(alloc);
    put(
        alloc,
        &mut files,
        "colleagues",
        COMPANY_COLLEAGUES.as_bytes(),
    )?;
    put(
        alloc,
        &mut files,
        "data/contacts.csv",
        COMPANY_DATA_CONTACTS_CSV.as_bytes(),
    )?;
    put(
        alloc,
        &mut files,
        "data/departments.csv",
        COMPANY_DATA_DEPARTMENTS_CSV.as_bytes(),
    )?;
    put(
        alloc,
        &mut files,
        "data/employees.csv",
        COMPANY_DATA_EMPLOYEES_CSV.as_bytes(),
    )?;
    put(
        alloc,
        &mut files,
        "data/tasks.csv",
        COMPANY_DATA_TASKS_CSV.as_bytes(),
    )?;
    put(alloc, &mut files, "idle", COMPANY_IDLE.as_bytes())?;
    put(
        alloc,
        &mut files,
        "json/contacts.json",
        COMPANY_JSON_CONTACTS_JSON.as_bytes(),
    )?;
    put(
        alloc,
        &mut files,
        "json/departments.json",
        COMPANY_JSON_DEPARTMENTS_JSON.as_bytes(),
    )?;
    put(
        alloc,
        &mut files,
        "json/employees.json",
        COMPANY_JSON_EMPLOYEES_JSON.as_bytes(),
    )?;
    put(
        alloc,
        &mut files,
        "json/tasks.json",
        COMPANY_JSON_TASKS_JSON.as_bytes(),
    )?;
    put(alloc, &mut files, "known", COMPANY_KNOWN.as_bytes())?;
    put(alloc, &mut files, "org", COMPANY_ORG.as_bytes())?;
    put(alloc, &mut files, "outliers", COMPANY_OUTLIERS.as_bytes())?;
    put(alloc, &mut files, "people", COMPANY_PEOPLE.as_bytes())?;
    put(alloc, &mut files, "rich", COMPANY_RICH.as_bytes())?;
    put(alloc, &mut files, "staff", COMPANY_STAFF.as_bytes())?;
    held(alloc, files, &[])
}

#[test]
fn runs_company(rt: HostRuntime) -> Result<(), Fail> {
    let alloc = rt.alloc();
    for wanted in &COMPANY {
        let inputs = files_of_company(alloc)?;
        check_run(&rt, alloc, Engine::Fast, inputs, wanted)?;
    }
    Ok(())
}

const SHOP_BASKETS: &str =
    r#"# Functions that take functions: orders by any test of the pieces of one of their lines.
let ordersWith = fun (test: int -> bool) ->
  for (o <- table orders)
  where (!empty(for (l <- table lines) where (l.order == o.id && test(l.pieces)) [()])) [o.id];
let both = fun (low: int -> bool) -> fun (high: int -> bool) ->
  [(few = ordersWith(low), many = ordersWith(high))];
both(fun (n: int) -> n == 1)(fun (n: int) -> n >= 5)
"#;

const SHOP_BILLS: &str = r#"# Arithmetic and choices: what each line costs, and how it is packed.
for (o <- table orders)
[(order = o.id, paid = o.paid,
  lines = for (l <- table lines) where (l.order == o.id)
    for (p <- table products) where (p.name == l.product)
    [(product = p.name, cents = l.pieces * p.price,
      packed = if l.pieces > 5 then 'crate' else if l.pieces > 1 then 'box' else 'bag')])]
"#;

const SHOP_CITIES: &str =
    r#"# Four levels. A city is named once, by the customer of the smallest number who lives there.
let cities = for (c <- table customers)
  where (empty(for (d <- table customers) where (d.city == c.city && d.id < c.id) [()])) [c.city];
for (city <- cities)
[(city = city,
  customers = for (c <- table customers) where (c.city == city)
    [(customer = c.name,
      orders = for (o <- table orders) where (o.customer == c.id)
        [(day = o.day,
          products = for (l <- table lines) where (l.order == o.id) [l.product])])])]
"#;

const SHOP_COLLECTORS: &str =
    r#"# Division by emptiness: who bought every product of a kind, that is, no product of it is one that they did not buy.
let bought = fun (customer: int) -> fun (product: text) ->
  for (o <- table orders) where (o.customer == customer)
  for (l <- table lines) where (l.order == o.id && l.product == product) [()];
let kinds = for (p <- table products)
  where (empty(for (q <- table products) where (q.kind == p.kind && q.name < p.name) [()])) [p.kind];
for (kind <- kinds)
[(kind = kind,
  customers = for (c <- table customers)
    where (empty(for (p <- table products) where (p.kind == kind && empty(bought(c.id)(p.name))) [()]))
    [c.name])]
"#;

const SHOP_DATA_CUSTOMERS_CSV: &str = r#"id,name,city
1,Ann,Bergen
2,Bo,Oslo
3,Cy,Oslo
"#;

const SHOP_DATA_LINES_CSV: &str = r#"order,product,pieces
10,lamp,2
10,pen,10
11,desk,1
12,desk,1
12,lamp,1
12,pen,5
"#;

const SHOP_DATA_ORDERS_CSV: &str = r#"id,customer,day,paid
10,1,2026-01-05,true
11,1,2026-02-11,false
12,2,2026-02-11,true
"#;

const SHOP_DATA_PRODUCTS_CSV: &str = r#"name,kind,price
desk,furniture,24900
lamp,furniture,5900
pen,office,120
stool,furniture,8900
"#;

const SHOP_FEED: &str =
    r#"# A union of kinds: what each customer did, one event for each order and one more where it was paid.
for (c <- table customers)
[(customer = c.name,
  events = (for (o <- table orders) where (o.customer == c.id) [(day = o.day, kind = 'ordered')])
    ++ (for (o <- table orders) where (o.customer == c.id && o.paid) [(day = o.day, kind = 'paid')]))]
"#;

const SHOP_ORDERS: &str = r#"# Each customer with the orders, and each order with its lines.
for (c <- table customers)
[(customer = c.name,
  orders = for (o <- table orders) where (o.customer == c.id)
    [(day = o.day,
      lines = for (l <- table lines) where (l.order == o.id)
        [(product = l.product, pieces = l.pieces)])])]
"#;

const SHOP_REFUSED_DATA_CUSTOMERS_CSV: &str = r#"id,name,city
1,Ann,Bergen
x,Bo,Oslo
"#;

const SHOP_REFUSED_EQUALS: &str = r#"for (c <- table customers) where (c.city = 'Oslo') [c.name]
"#;

const SHOP_REFUSED_KEYLESS: &str = r#"# The shop, where no table has a key.
table customers (id: int, name: text, city: text);
table orders (id: int, customer: int, day: text, paid: bool);
table lines (order: int, product: text, pieces: int);
table products (name: text, kind: text, price: int);
"#;

const SHOP_REFUSED_LABEL: &str = r#"for (c <- table customers) [c.nam]
"#;

const SHOP_REFUSED_SCHEMA: &str = r#"table customers (id: int, id: text);
"#;

const SHOP_REFUSED_STAR_SQL: &str = r#"SELECT * FROM "customers" AS "c"
"#;

const SHOP_SHOP: &str = r#"# A shop: who ordered what. Money is in cents.
table customers (id: int, name: text, city: text, key (id));
table orders (id: int, customer: int, day: text, paid: bool, key (id));
table lines (order: int, product: text, pieces: int, key (order, product));
table products (name: text, kind: text, price: int, key (name));
"#;

const SHOP_TOGETHER: &str =
    r#"# A self-join: what was ordered with each product, as often as it was.
for (p <- table products)
[(product = p.name,
  others = for (l <- table lines) where (l.product == p.name)
    for (m <- table lines) where (m.order == l.order && m.product != p.name) [m.product])]
"#;

const SHOP_TOTALS: &str = r#"nq 2;
# Totals at two levels: what each order costs and how many lines it has, and what each customer ordered in all.
let costs = fun (order: int) ->
  sum(for (l <- table lines) where (l.order == order)
      for (p <- table products) where (p.name == l.product) [l.pieces * p.price]);
for (c <- table customers)
[(customer = c.name,
  number = count(for (o <- table orders) where (o.customer == c.id) [()]),
  cents = sum(for (o <- table orders) where (o.customer == c.id) [costs(o.id)]),
  orders = for (o <- table orders) where (o.customer == c.id)
    [(day = o.day, cents = costs(o.id),
      lines = count(for (l <- table lines) where (l.order == o.id) [()]))])]
"#;

const SHOP_UNPAID_SQL: &str = r#"SELECT "o"."id" AS "order", "c"."name" AS "customer"
FROM "orders" AS "o", "customers" AS "c"
WHERE "o"."customer" = "c"."id" AND NOT "o"."paid"
"#;

const SHOP_UNSOLD: &str = r#"# The products of each kind that nobody ordered.
let kinds = for (p <- table products)
  where (empty(for (q <- table products) where (q.kind == p.kind && q.name < p.name) [()])) [p.kind];
for (kind <- kinds)
[(kind = kind,
  unsold = for (p <- table products)
    where (p.kind == kind && empty(for (l <- table lines) where (l.product == p.name) [()])) [p.name])]
"#;

// The runs in examples/shop.
const SHOP: [Wanted; 19] = [
    Wanted {
        words: &["run", "shop", "baskets", "data"],
        room: 2000,
        status: 0,
        out: r#"{(few = {11, 12}, many = {10, 12})}
"#,
        note: "",
    },
    Wanted {
        words: &["run", "shop", "bills", "data"],
        room: 2000,
        status: 0,
        out: r#"{(lines = {(cents = 600, packed = 'box', product = 'pen'), (cents = 5900, packed = 'bag', product = 'lamp'), (cents = 24900, packed = 'bag', product = 'desk')}, order = 12, paid = true), (lines = {(cents = 1200, packed = 'crate', product = 'pen'), (cents = 11800, packed = 'box', product = 'lamp')}, order = 10, paid = true), (lines = {(cents = 24900, packed = 'bag', product = 'desk')}, order = 11, paid = false)}
"#,
        note: "",
    },
    Wanted {
        words: &["run", "shop", "cities", "data"],
        room: 2000,
        status: 0,
        out: r#"{(city = 'Bergen', customers = {(customer = 'Ann', orders = {(day = '2026-01-05', products = {'lamp', 'pen'}), (day = '2026-02-11', products = {'desk'})})}), (city = 'Oslo', customers = {(customer = 'Bo', orders = {(day = '2026-02-11', products = {'desk', 'lamp', 'pen'})}), (customer = 'Cy', orders = {})})}
"#,
        note: "",
    },
    Wanted {
        words: &["run", "shop", "collectors", "data"],
        room: 2000,
        status: 0,
        out: r#"{(customers = {}, kind = 'furniture'), (customers = {'Ann', 'Bo'}, kind = 'office')}
"#,
        note: "",
    },
    Wanted {
        words: &["run", "shop", "feed", "data"],
        room: 2000,
        status: 0,
        out: r#"{(customer = 'Ann', events = {(day = '2026-01-05', kind = 'ordered'), (day = '2026-01-05', kind = 'paid'), (day = '2026-02-11', kind = 'ordered')}), (customer = 'Bo', events = {(day = '2026-02-11', kind = 'ordered'), (day = '2026-02-11', kind = 'paid')}), (customer = 'Cy', events = {})}
"#,
        note: "",
    },
    Wanted {
        words: &["run", "shop", "orders", "data"],
        room: 2000,
        status: 0,
        out: r#"{(customer = 'Ann', orders = {(day = '2026-01-05', lines = {(pieces = 2, product = 'lamp'), (pieces = 10, product = 'pen')}), (day = '2026-02-11', lines = {(pieces = 1, product = 'desk')})}), (customer = 'Bo', orders = {(day = '2026-02-11', lines = {(pieces = 1, product = 'desk'), (pieces = 1, product = 'lamp'), (pieces = 5, product = 'pen')})}), (customer = 'Cy', orders = {})}
"#,
        note: "",
    },
    Wanted {
        words: &["run", "shop", "together", "data"],
        room: 2000,
        status: 0,
        out: r#"{(others = {}, product = 'stool'), (others = {'desk', 'lamp', 'lamp'}, product = 'pen'), (others = {'desk', 'pen', 'pen'}, product = 'lamp'), (others = {'lamp', 'pen'}, product = 'desk')}
"#,
        note: "",
    },
    Wanted {
        words: &["run", "shop", "totals", "data"],
        room: 2000,
        status: 0,
        out: r#"{(cents = 0, customer = 'Cy', number = 0, orders = {}), (cents = 31400, customer = 'Bo', number = 1, orders = {(cents = 31400, day = '2026-02-11', lines = 3)}), (cents = 37900, customer = 'Ann', number = 2, orders = {(cents = 13000, day = '2026-01-05', lines = 2), (cents = 24900, day = '2026-02-11', lines = 1)})}
"#,
        note: "",
    },
    Wanted {
        words: &["answer", "shop", "unpaid.sql", "data"],
        room: 2000,
        status: 0,
        out: r#"rows 1
11|'Ann'
"#,
        note: "",
    },
    Wanted {
        words: &["run", "shop", "unsold", "data"],
        room: 2000,
        status: 0,
        out: r#"{(kind = 'furniture', unsold = {'stool'}), (kind = 'office', unsold = {})}
"#,
        note: "",
    },
    Wanted {
        words: &["show", "order", "shop"],
        room: 2000,
        status: 2,
        out: "",
        note: r#"nq: usage
"#,
    },
    Wanted {
        words: &["check", "refused/schema", "orders"],
        room: 2000,
        status: 3,
        out: "",
        note: r#"nq: schema refused: TwiceColumn at 26
"#,
    },
    Wanted {
        words: &["check", "shop", "refused/equals"],
        room: 2000,
        status: 4,
        out: "",
        note: r#"nq: query refused: Unexpected at 41
"#,
    },
    Wanted {
        words: &["check", "shop", "refused/label"],
        room: 2000,
        status: 5,
        out: "",
        note: r#"nq: ill typed: rule 15 at 29
"#,
    },
    Wanted {
        words: &["run", "shop", "orders", "refused/data"],
        room: 2000,
        status: 6,
        out: "",
        note: r#"nq: table customers refused: BadInt row 2 column 1
"#,
    },
    Wanted {
        words: &["run", "shop", "orders", "nowhere"],
        room: 2000,
        status: 7,
        out: "",
        note: r#"nq: input failed: nowhere/customers.csv
"#,
    },
    Wanted {
        words: &["check", "shop", "long"],
        room: 2000,
        status: 10,
        out: "",
        note: r#"nq: input too long: long over 1048576
"#,
    },
    Wanted {
        words: &["answer", "shop", "refused/star.sql", "data"],
        room: 2000,
        status: 12,
        out: "",
        note: r#"nq: sql refused: Unexpected at 7
"#,
    },
    Wanted {
        words: &["run", "natural", "refused/keyless", "orders", "data"],
        room: 2000,
        status: 14,
        out: "",
        note: r#"nq: no key: table customers
"#,
    },
];

// The files of examples/shop.
fn files_of_shop(alloc: Global) -> Result<HeldInputs, Fail> {
    let mut files = List::new(alloc);
    put(alloc, &mut files, "baskets", SHOP_BASKETS.as_bytes())?;
    put(alloc, &mut files, "bills", SHOP_BILLS.as_bytes())?;
    put(alloc, &mut files, "cities", SHOP_CITIES.as_bytes())?;
    put(alloc, &mut files, "collectors", SHOP_COLLECTORS.as_bytes())?;
    put(
        alloc,
        &mut files,
        "data/customers.csv",
        SHOP_DATA_CUSTOMERS_CSV.as_bytes(),
    )?;
    put(
        alloc,
        &mut files,
        "data/lines.csv",
        SHOP_DATA_LINES_CSV.as_bytes(),
    )?;
    put(
        alloc,
        &mut files,
        "data/orders.csv",
        SHOP_DATA_ORDERS_CSV.as_bytes(),
    )?;
    put(
        alloc,
        &mut files,
        "data/products.csv",
        SHOP_DATA_PRODUCTS_CSV.as_bytes(),
    )?;
    put(alloc, &mut files, "feed", SHOP_FEED.as_bytes())?;
    put(alloc, &mut files, "orders", SHOP_ORDERS.as_bytes())?;
    put(
        alloc,
        &mut files,
        "refused/data/customers.csv",
        SHOP_REFUSED_DATA_CUSTOMERS_CSV.as_bytes(),
    )?;
    put(
        alloc,
        &mut files,
        "refused/equals",
        SHOP_REFUSED_EQUALS.as_bytes(),
    )?;
    put(
        alloc,
        &mut files,
        "refused/keyless",
        SHOP_REFUSED_KEYLESS.as_bytes(),
    )?;
    put(
        alloc,
        &mut files,
        "refused/label",
        SHOP_REFUSED_LABEL.as_bytes(),
    )?;
    put(
        alloc,
        &mut files,
        "refused/schema",
        SHOP_REFUSED_SCHEMA.as_bytes(),
    )?;
    put(
        alloc,
        &mut files,
        "refused/star.sql",
        SHOP_REFUSED_STAR_SQL.as_bytes(),
    )?;
    put(alloc, &mut files, "shop", SHOP_SHOP.as_bytes())?;
    put(alloc, &mut files, "together", SHOP_TOGETHER.as_bytes())?;
    put(alloc, &mut files, "totals", SHOP_TOTALS.as_bytes())?;
    put(alloc, &mut files, "unpaid.sql", SHOP_UNPAID_SQL.as_bytes())?;
    put(alloc, &mut files, "unsold", SHOP_UNSOLD.as_bytes())?;
    let long = padded(alloc, 1_048_577, "")?;
    put(alloc, &mut files, "long", long.as_slice())?;
    held(alloc, files, &[])
}

#[test]
fn runs_shop(rt: HostRuntime) -> Result<(), Fail> {
    let alloc = rt.alloc();
    for wanted in &SHOP {
        let inputs = files_of_shop(alloc)?;
        check_run(&rt, alloc, Engine::Fast, inputs, wanted)?;
    }
    Ok(())
}
